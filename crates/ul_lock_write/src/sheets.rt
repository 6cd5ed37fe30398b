//! A lock in one version of the format.

use ul_base::Name;
use ul_lock::{Packages, Region, Regions};
use ul_lock_lines::Edition;

/// What stands above the packages.
#[derive(Drop)]
pub struct Head {
    pub edition: Edition,
    pub root: Name,
    pub supported: Region,
    pub forks: Regions,
}

/// A lock in one version of the format.
#[derive(Drop)]
pub struct Sheet {
    pub head: Head,
    pub packages: Packages,
}
