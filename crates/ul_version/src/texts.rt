//! The normal text of a version.

ghost use Rattle.std.specs.Prelude.{◌≡◌, ◌<◌, ◌++◌, IfOk, OnOk, IsTrue, Some, length, string_bytes};
ghost use Rattle.std.specs.List.{list_all};
ghost use Rattle.ul_version.specs.Reading.{version_of};
ghost use Rattle.std.specs.Fmt.{decimal};
ghost use Rattle.ul_version.specs.Texts.{epoch_text, is_text_byte, local_text, numbered_text, pre_text, release_text, segment_text, version_text};

use crate::{Pre, PreKind, Segment, Version};
use std::alloc::{AllocError, Global};
use std::fmt::Write;

impl Version {
    /// The normal text, which reads as the same version.
    ///
    /// It isn't empty, and has only digits, lower-case letters, points, `!` and `+`.
    pub fn text(&self, alloc: Global) -> Result<String, AllocError>
        ensures text { IfOk result (λ t. string_bytes t ≡ version_text self.now) }
        ensures reads { IfOk result (λ t. version_of (string_bytes t) ≡ Some self.now) }
        ensures plain { IfOk result (λ t. IsTrue (list_all is_text_byte (string_bytes t))) }
        ensures filled { IfOk result (λ t. 0 < length (string_bytes t)) }
    {
        let mut text = String::new(alloc);
        push_epoch(&mut text, self.epoch)?;
        push_release(&mut text, self.release.as_slice())?;
        push_pre(&mut text, self.pre)?;
        push_numbered(&mut text, ".post", self.post)?;
        push_numbered(&mut text, ".dev", self.dev)?;
        push_local(&mut text, self.local.as_slice())?;
        Ok(text)
    }
}

// A mark and a number.
fn push_number(text: &mut String, mark: &str, number: u64) -> Result<(), AllocError>
    ensures { OnOk result (string_bytes text.new ≡ string_bytes text.old ++ (mark.now ++ decimal number)) }
{
    match write!(text, "{mark}{number}") {
        Ok(()) => Ok(()),
        Err(_) => Err(AllocError),
    }
}

fn push_epoch(text: &mut String, epoch: u64) -> Result<(), AllocError>
    ensures { OnOk result (string_bytes text.new ≡ string_bytes text.old ++ epoch_text epoch) }
{
    if epoch == 0 {
        return Ok(());
    }
    push_number(text, "", epoch)?;
    text.push_str("!")
}

fn push_release(text: &mut String, release: &[u64]) -> Result<(), AllocError>
    ensures { OnOk result (string_bytes text.new ≡ string_bytes text.old ++ release_text release.now) }
{
    let [first, others @ ..] = release else {
        return Ok(());
    };
    push_number(text, "", *first)?;
    for number in others {
        push_number(text, ".", *number)?;
    }
    Ok(())
}

fn push_pre(text: &mut String, pre: Option<Pre>) -> Result<(), AllocError>
    ensures { OnOk result (string_bytes text.new ≡ string_bytes text.old ++ pre_text pre) }
{
    let Some(pre) = pre else {
        return Ok(());
    };
    let kind = match pre.kind {
        PreKind::A => "a",
        PreKind::B => "b",
        PreKind::Rc => "rc",
    };
    push_number(text, kind, pre.number)
}

// A word and its number, where there is one.
fn push_numbered(text: &mut String, word: &str, number: Option<u64>) -> Result<(), AllocError>
    ensures { OnOk result (string_bytes text.new ≡ string_bytes text.old ++ numbered_text word.now number) }
{
    match number {
        Some(number) => push_number(text, word, number),
        None => Ok(()),
    }
}

// A mark and a segment.
fn push_segment(text: &mut String, mark: &str, segment: &Segment) -> Result<(), AllocError>
    ensures { OnOk result (string_bytes text.new ≡ string_bytes text.old ++ (mark.now ++ segment_text segment.now)) }
{
    match segment {
        Segment::Number(number) => push_number(text, mark, *number),
        Segment::Word(word) => {
            text.push_str(mark)?;
            text.push_str(word.as_str())
        }
    }
}

fn push_local(text: &mut String, local: &[Segment]) -> Result<(), AllocError>
    ensures { OnOk result (string_bytes text.new ≡ string_bytes text.old ++ local_text local.now) }
{
    let [first, others @ ..] = local else {
        return Ok(());
    };
    push_segment(text, "+", first)?;
    for segment in others {
        push_segment(text, ".", segment)?;
    }
    Ok(())
}
