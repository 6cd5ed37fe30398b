//! The order of versions.
ghost use Rattle.std.specs.Prelude.{◌≡◌};
ghost use Rattle.ul_version.specs.Order.{local_cmp, segment_cmp, version_cmp};

use crate::{Public, Segment, Version};
use std::cmp::Ordering;

impl Version {
    /// The order of PEP 440: epoch, release, pre, post, dev and local part, in turn.
    ///
    /// Versions that tie differ in nothing but zeros at the end of the release. It takes no memory, and stops at the
    /// first difference.
    pub fn cmp(&self, other: &Version) -> Ordering
        ensures { result ≡ version_cmp self.now other.now }
    {
        let publics = Public::of(self).cmp(&Public::of(other));
        if publics.is_ne() {
            return publics;
        }
        cmp_locals(self.local.as_slice(), other.local.as_slice())
    }
}

// A word comes before a number, words go by their bytes, and numbers by value.
fn cmp_segments(x: &Segment, y: &Segment) -> Ordering
    ensures { result ≡ segment_cmp x.now y.now }
{
    match (x, y) {
        (Segment::Word(s), Segment::Word(t)) => s.as_str().as_bytes().cmp(t.as_str().as_bytes()),
        (Segment::Word(_), Segment::Number(_)) => Ordering::Less,
        (Segment::Number(_), Segment::Word(_)) => Ordering::Greater,
        (Segment::Number(m), Segment::Number(n)) => m.cmp(n),
    }
}

// Segment by segment, and a list that ends first comes first.
fn cmp_locals(xs: &[Segment], ys: &[Segment]) -> Ordering
    ensures { result ≡ local_cmp xs.now ys.now }
{
    for i in 0..xs.len() {
        if i >= ys.len() {
            return Ordering::Greater;
        }
        let order = cmp_segments(&xs[i], &ys[i]);
        if order.is_ne() {
            return order;
        }
    }
    if xs.len() < ys.len() {
        Ordering::Less
    } else {
        Ordering::Equal
    }
}
