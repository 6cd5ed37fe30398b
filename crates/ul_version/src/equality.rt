//! Equality of versions, part by part.
ghost use Rattle.std.specs.Prelude.{◌≡◌, ◌↔◌, IsTrue};

use crate::{Pre, Segment, Version};

impl Version {
    /// Whether two versions are the same, part by part. Versions that tie in the order may differ in zeros.
    pub fn same(&self, other: &Version) -> bool
        ensures { IsTrue result ↔ (self.now ≡ other.now) }
    {
        self.release.as_slice() == other.release.as_slice()
            && self.epoch == other.epoch
            && same_pre(self.pre, other.pre)
            && self.post == other.post
            && self.dev == other.dev
            && same_segments(self.local.as_slice(), other.local.as_slice())
    }
}

fn same_pre(pre: Option<Pre>, other: Option<Pre>) -> bool
    ensures { IsTrue result ↔ (pre ≡ other) }
{
    match (pre, other) {
        (Some(pre), Some(other)) => pre.kind == other.kind && pre.number == other.number,
        (None, None) => true,
        _ => false,
    }
}

fn same_segment(segment: &Segment, other: &Segment) -> bool
    ensures { IsTrue result ↔ (segment.now ≡ other.now) }
{
    match (segment, other) {
        (Segment::Number(number), Segment::Number(other)) => number == other,
        (Segment::Word(word), Segment::Word(other)) => word.as_str() == other.as_str(),
        _ => false,
    }
}

fn same_segments(segments: &[Segment], others: &[Segment]) -> bool
    ensures { IsTrue result ↔ (segments.now ≡ others.now) }
{
    if segments.len() != others.len() {
        return false;
    }
    for k in 0..segments.len() {
        if !same_segment(&segments[k], &others[k]) {
            return false;
        }
    }
    true
}
