//! The lines of a refused fork.

ghost use Rattle.std.specs.Prelude.{◌≡◌, ◌≢◌, ◌++◌, ◌∷◌, [], IfErr, IfOk, OnOk, true, false, flat_map, string_bytes};
ghost use Rattle.std.specs.Fmt.{decimal};
ghost use Rattle.ul_marker_text.specs.Faults.{IsTextFault};
ghost use Rattle.ul_report.specs.Texts as spec;
ghost use Rattle.ul_report.specs.Texts.{lines_text, path_text, python_part, refusal_text, text_part, text_variables, truth_part, world_text};
ghost use Rattle.ul_tree.specs.Paths.{is_printable};
ghost use Rattle.ul_nodes.specs.Plain.{truth};
ghost use Rattle.ul_nodes.specs.Reduced.{IsReduced};
ghost use Rattle.ul_tree.specs.Sample.{asks_extra, sample_of};
ghost use Rattle.ul_tree.specs.Views.{tree_view};

use std::alloc::{AllocError, Global};
use std::fmt::Write;
use ul_marker::printed::{push_atom, push_text};
use ul_marker::{Atom, Variable, World};
use ul_marker_text::TextFault;
use ul_tree::{Tree, sample};

// ---- a world

/// Writes a number in decimal.
pub fn push_number(out: &mut String, number: u64) -> Result<(), AllocError>
    ensures { OnOk result (string_bytes out.new ≡ string_bytes out.old ++ decimal number) }
{
    match write!(out, "{number}") {
        Ok(()) => Ok(()),
        Err(_) => Err(AllocError),
    }
}

#[tactic(auto, unfolding(crate::specs::Texts::python_part))]
fn push_python(out: &mut String, world: &World) -> Result<(), AllocError>
    ensures { OnOk result (string_bytes out.new ≡ string_bytes out.old ++ python_part world.now) }
{
    let (major, minor, patch) = world.python;
    out.push_str("python_full_version == '")?;
    push_number(out, major as u64)?;
    out.push_str(".")?;
    push_number(out, minor as u64)?;
    out.push_str(".")?;
    push_number(out, patch as u64)?;
    out.push_str("'")?;
    Ok(())
}

#[tactic(auto, unfolding(crate::specs::Texts::text_part))]
fn push_text_of(out: &mut String, world: &World, variable: Variable) -> Result<(), AllocError>
    ensures { OnOk result (string_bytes out.new ≡ string_bytes out.old ++ text_part world.now variable) }
{
    out.push_str(" and ")?;
    push_text(out, variable, world.text(variable), true)?;
    Ok(())
}

fn push_texts(out: &mut String, world: &World) -> Result<(), AllocError>
    ensures { OnOk result (string_bytes out.new ≡ string_bytes out.old
        ++ flat_map (text_part world.now) text_variables) }
{
    push_text_of(out, world, Variable::OsName)?;
    push_text_of(out, world, Variable::SysPlatform)?;
    push_text_of(out, world, Variable::PlatformMachine)?;
    push_text_of(out, world, Variable::PlatformPythonImplementation)?;
    push_text_of(out, world, Variable::PlatformRelease)?;
    push_text_of(out, world, Variable::PlatformSystem)?;
    push_text_of(out, world, Variable::PlatformVersion)?;
    push_text_of(out, world, Variable::ImplementationName)?;
    Ok(())
}

#[tactic(auto, unfolding(crate::specs::Texts::truth_part))]
fn push_truth(out: &mut String, atom: &Atom) -> Result<(), AllocError>
    ensures { OnOk result (string_bytes out.new ≡ string_bytes out.old ++ truth_part atom.now) }
{
    out.push_str(" and ")?;
    push_atom(out, atom, true)?;
    Ok(())
}

fn push_truths(out: &mut String, truths: &[Atom]) -> Result<(), AllocError>
    ensures { OnOk result (string_bytes out.new ≡ string_bytes out.old ++ flat_map truth_part truths.now) }
{
    for atom in truths {
        push_truth(out, atom)?;
    }
    Ok(())
}

#[tactic(auto, unfolding(crate::specs::Texts::world_text))]
fn push_world(out: &mut String, world: &World) -> Result<(), AllocError>
    ensures { OnOk result (string_bytes out.new ≡ string_bytes out.old ++ world_text world.now) }
{
    push_python(out, world)?;
    push_texts(out, world)?;
    push_truths(out, &world.truths)?;
    Ok(())
}

/// A world of a region as comparisons, as `refusal` prints it: the region's sample. The region isn't false and asks for
/// no extra.
pub fn sample_text(alloc: Global, region: &Tree) -> Result<String, AllocError>
    requires reduced { IsReduced (tree_view region.now) }
    requires not_false { tree_view region.now ≢ truth false }
    requires no_extra { asks_extra (tree_view region.now) ≡ false }
    ensures { IfOk result (λ s. string_bytes s ≡ world_text (sample_of (tree_view region.now))) }
{
    let world = sample(alloc, region)?;
    let mut out = String::new(alloc);
    push_world(&mut out, &world)?;
    Ok(out)
}

// ---- a path

fn digit(step: bool) -> &'static str
    ensures { result.now ≡ spec.digit step ∷ [] }
{
    if step { "1" } else { "0" }
}

fn push_path(out: &mut String, path: &[bool]) -> Result<(), AllocError>
    ensures { OnOk result (string_bytes out.new ≡ string_bytes out.old ++ path_text path.now) }
{
    if path.is_empty() {
        out.push_str("-")?;
        return Ok(());
    }
    for step in path {
        out.push_str(digit(*step))?;
    }
    Ok(())
}

// ---- the lines

#[tactic(auto, unfolding(crate::specs::Texts::lines_text))]
fn lines(alloc: Global, path: &[bool], marker: &str, world: &World) -> Result<String, AllocError>
    ensures { IfOk result (λ s. string_bytes s ≡ lines_text path.now marker.now world.now) }
{
    let mut out = String::new(alloc);
    out.push_str("no selection serves this fork\nfork: ")?;
    push_path(&mut out, path)?;
    out.push_str("\nregion: ")?;
    out.push_str(marker)?;
    out.push_str("\nworld: ")?;
    push_world(&mut out, world)?;
    out.push_str("\n")?;
    Ok(out)
}

/// The four lines of a refused fork: that no selection serves it, its path, its region as a marker, and a world of it.
///
/// In the path, true is the digit 1; the path of the whole region is `-`. The region isn't false and asks for no extra.
///
/// # Errors
///
/// `TooLong` exactly where more than 4,096 paths of the region lead to true, or one has more than 512 nodes; that is
/// found before anything is written.
pub fn refusal(alloc: Global, path: &[bool], region: &Tree) -> Result<Vec<u8>, TextFault>
    requires reduced { IsReduced (tree_view region.now) }
    requires not_false { tree_view region.now ≢ truth false }
    requires no_extra { asks_extra (tree_view region.now) ≡ false }
    ensures text { IfOk result (λ v. v.items ≡ refusal_text path.now (tree_view region.now)) }
    ensures fits { IfOk result (λ v. is_printable (tree_view region.now) ≡ true) }
    ensures refused { IfErr result (λ e. IsTextFault (tree_view region.now) e) }
{
    let marker = match ul_marker_text::text(alloc, region) {
        Ok(marker) => marker,
        Err(fault) => return Err(fault),
    };
    let world = sample(alloc, region)?;
    let text = lines(alloc, path, marker.as_str(), &world)?;
    Ok(text.into_bytes())
}
