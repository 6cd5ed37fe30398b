//! The project file.

ghost use Rattle.std.specs.Prelude.{◌≡◌, ◌++◌, ◌<◌, ◌≤◌, ◌+◌, IfOk, OnOk, string_bytes, min};
ghost use Rattle.ul_gen.specs.Texts.{project_text, project_head, text_below, eighth_line, fork_line, fork_lines};

use crate::texts::{put_name, put_number};
use std::alloc::{AllocError, Global};

const HEAD: &str =
    "[project]\nname = \"generated\"\nversion = \"1\"\nrequires-python = \">=3.9\"\ndependencies = [\n";

/// The project file of `size` packages, which is the same for each seed.
///
/// It asks for each eighth package, and for the first three in two versions of the interpreter each, so that its lock
/// has forks. `size` is 1 to 2,000.
#[tactic(auto, unfolding(crate::specs::Texts::project_text))]
pub fn project_of(alloc: Global, _seed: u64, size: u64) -> Result<Vec<u8>, AllocError>
    requires some { 1 ≤ size }
    requires most { size ≤ 2000 }
    ensures text { IfOk result (λ v. v.items ≡ project_text size) }
{
    let mut text = String::new(alloc);
    text.push_str(HEAD)?;
    put_eighths(&mut text, size)?;
    put_forks(&mut text, if size < 3 { size } else { 3 })?;
    text.push_str("]\n")?;
    Ok(text.into_bytes())
}

#[tactic(auto, using(crate::proofs::Written::below_next))]
fn put_eighths(text: &mut String, size: u64) -> Result<(), AllocError>
    ensures { OnOk result (string_bytes text.new ≡ string_bytes text.old ++ text_below eighth_line size) }
{
    for k in 0..size {
        put_eighth(text, k)?;
    }
    Ok(())
}

#[tactic(auto, unfolding(crate::specs::Texts::eighth_line))]
fn put_eighth(text: &mut String, k: u64) -> Result<(), AllocError>
    ensures { OnOk result (string_bytes text.new ≡ string_bytes text.old ++ eighth_line k) }
{
    if k % 8 != 0 {
        return Ok(());
    }
    text.push_str("    \"")?;
    put_name(text, k)?;
    text.push_str(">=1\",\n")?;
    Ok(())
}

#[tactic(auto, using(crate::proofs::Written::below_next))]
fn put_forks(text: &mut String, size: u64) -> Result<(), AllocError>
    requires { size ≤ 3 }
    ensures { OnOk result (string_bytes text.new ≡ string_bytes text.old ++ text_below fork_lines size) }
{
    for k in 0..size {
        put_fork(text, k)?;
    }
    Ok(())
}

fn put_fork(text: &mut String, k: u64) -> Result<(), AllocError>
    requires { k < 3 }
    ensures { OnOk result (string_bytes text.new ≡ string_bytes text.old ++ fork_lines k) }
{
    put_condition(text, "<3; python_version < '3.", k)?;
    put_condition(text, "; python_version >= '3.", k)?;
    Ok(())
}

fn put_condition(text: &mut String, condition: &str, k: u64) -> Result<(), AllocError>
    requires { k < 3 }
    ensures { OnOk result (string_bytes text.new ≡ string_bytes text.old ++ fork_line condition.now k) }
{
    text.push_str("    \"")?;
    put_name(text, k)?;
    text.push_str(condition)?;
    put_number(text, 10 + k)?;
    text.push_str("'\",\n")?;
    Ok(())
}
