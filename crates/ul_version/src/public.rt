//! The public part of a version, which is the version without its local part.
ghost use Rattle.std.specs.Prelude.{◌≡◌, slice_index};
ghost use Rattle.ul_version.specs.Fields.{is_post_of, is_pre_of, plain, without_local};
ghost use Rattle.ul_version.specs.Order.{dev_place, has_release_front, post_place, pre_place, release_cmp, suffix_cmp, version_cmp};

use crate::{Pre, PreKind, Version};
use std::cmp::Ordering;
use std::marker::Model;

/// The public part of a version: the version without its local part, borrowed from it.
///
/// Contracts see it as the record `Fields` with an empty local part. It takes no memory.
#[derive(Drop)]
pub struct Public<'a> {
    pub epoch: u64,
    pub release: &'a [u64],
    pub pre: Option<Pre>,
    pub post: Option<u64>,
    pub dev: Option<u64>,
}

impl<'a> Model for Public<'a> {
    ghost use Rattle.ul_version.specs.Fields.{Fields, public_fields};

    ghost Value = { Fields };

    ghost view = { λ p. public_fields p.epoch p.release.now p.pre p.post p.dev };
}

impl<'a> Public<'a> {
    /// The public part of a version.
    pub fn of(version: &'a Version) -> Public<'a>
        ensures { result ≡ without_local version.now }
    {
        Public {
            epoch: version.epoch,
            release: version.release.as_slice(),
            pre: version.pre,
            post: version.post,
            dev: version.dev,
        }
    }

    /// The version that has a release, epoch 0 and nothing else.
    pub fn plain(release: &'a [u64]) -> Public<'a>
        ensures { result ≡ plain release.now }
    {
        Public {
            epoch: 0,
            release,
            pre: None,
            post: None,
            dev: None,
        }
    }

    /// Whether this is a pre-release: a version with a pre or a dev part.
    pub fn is_pre(&self) -> bool
        ensures { result ≡ is_pre_of self.now }
    {
        self.pre.is_some() || self.dev.is_some()
    }

    /// Whether this is a post-release: a version with a post part.
    pub fn is_post(&self) -> bool
        ensures { result ≡ is_post_of self.now }
    {
        self.post.is_some()
    }

    /// The order of PEP 440: epoch, release, pre, post and dev part, in turn. It stops at the first difference.
    pub fn cmp(&self, other: &Public) -> Ordering
        ensures { result ≡ version_cmp self.now other.now }
    {
        let epochs = self.epoch.cmp(&other.epoch);
        if epochs.is_ne() {
            return epochs;
        }
        let releases = cmp_releases(self.release, other.release);
        if releases.is_ne() {
            return releases;
        }
        cmp_suffixes(self, other)
    }
}

/// The order of two releases, the shorter one padded with zeros.
pub fn cmp_releases(release: &[u64], other: &[u64]) -> Ordering
    ensures { result ≡ release_cmp release.now other.now }
{
    let size = release.len().max(other.len());
    for i in 0..size {
        let (x, y) = (number_at(release, i), number_at(other, i));
        if x != y {
            return x.cmp(&y);
        }
    }
    Ordering::Equal
}

/// Whether a release, padded with zeros, begins with these numbers.
pub fn has_front(release: &[u64], front: &[u64]) -> bool
    ensures { result ≡ has_release_front front.now release.now }
{
    for i in 0..front.len() {
        if number_at(release, i) != front[i] {
            return false;
        }
    }
    true
}

// The number at this place of a release, which is 0 past its end.
fn number_at(release: &[u64], i: usize) -> u64
    ensures { result ≡ slice_index release.now i }
{
    if i < release.len() { release[i] } else { 0 }
}

// The order by what follows the release.
fn cmp_suffixes(version: &Public, other: &Public) -> Ordering
    ensures { result ≡ suffix_cmp version.now other.now }
{
    let pres = pre_place(version).cmp(&pre_place(other));
    if pres.is_ne() {
        return pres;
    }
    let posts = post_place(version.post).cmp(&post_place(other.post));
    if posts.is_ne() {
        return posts;
    }
    dev_place(version.dev).cmp(&dev_place(other.dev))
}

fn pre_place(version: &Public) -> (u8, u64)
    ensures { result ≡ pre_place version.now }
{
    match (version.pre, version.post, version.dev) {
        (Some(pre), _, _) => match pre.kind {
            PreKind::A => (1, pre.number),
            PreKind::B => (2, pre.number),
            PreKind::Rc => (3, pre.number),
        },
        (None, None, Some(_)) => (0, 0),
        _ => (4, 0),
    }
}

fn post_place(post: Option<u64>) -> (u8, u64)
    ensures { result ≡ post_place post }
{
    match post {
        None => (0, 0),
        Some(number) => (1, number),
    }
}

fn dev_place(dev: Option<u64>) -> (u8, u64)
    ensures { result ≡ dev_place dev }
{
    match dev {
        Some(number) => (0, number),
        None => (1, 0),
    }
}
