//! Machines: what an interpreter says of itself.
ghost use Rattle.std.specs.Prelude.{◌≡◌, ◌++◌, ◌<◌, ℕ, List, IfOk, IfSome, None, [], Option, map, option_map, codes, length, string_bytes};
ghost use Rattle.std.specs.Option.{ok_or};
ghost use Rattle.std.specs.List.{before_first, after_first};
ghost use Rattle.serde_json.specs.View.{view};
ghost use Rattle.ul_comparison.specs.Json.{json_of, text_at};
ghost use Rattle.ul_comparison.specs.MachineFiles as Files;
ghost use Rattle.ul_comparison.specs.MachineFiles.{machine_of, machine_in, object_of, Tells};
ghost use Rattle.ul_comparison.specs.Triples.{IsPointCut, is_point, number_of, triple_of};

use crate::EnvFault;
use serde_json::Value;
use std::alloc::{AllocError, Global};
use std::marker::Model;

/// An interpreter on a machine, as it describes itself (PEP 508, "Environment Markers").
///
/// It has the three numbers of its version, eight texts in the order of the text variables (`os_name`,
/// `sys_platform`, `platform_machine`, `platform_python_implementation`, `platform_release`,
/// `platform_system`, `platform_version`, `implementation_name`), and `implementation_version`. Contracts see a
/// machine as the record `MachineFields`.
#[derive(Drop)]
pub struct Machine {
    pub python: (u32, u32, u32),
    pub texts: Vec<String>,
    pub implementation_version: String,
}

impl Model for Machine {
    ghost use Rattle.std.specs.Prelude.{map, string_bytes};
    ghost use Rattle.ul_comparison.specs.Machines.{MachineFields, IsMachine, machine_fields};

    ghost Value = { MachineFields };

    ghost view = { λ m. machine_fields m.python (map string_bytes m.texts.items) (string_bytes m.implementation_version) };

    ghost invariant = { λ m. IsMachine (machine_fields m.python (map string_bytes m.texts.items) (string_bytes m.implementation_version)) };
}

impl Machine {
    /// The machine that a file says, which is an object of JSON.
    ///
    /// The object has a text at each of `os_name`, `sys_platform`, `platform_machine`,
    /// `platform_python_implementation`, `platform_release`, `platform_system`, `platform_version`,
    /// `implementation_name`, `implementation_version` and `python_full_version`, which is three numbers below
    /// 2^32 joined by points. Other keys are passed over, and of a repeated key the last counts. `NotJson` is the
    /// answer exactly where `serde_json` doesn't read the bytes or the value is no object, else `Missing` exactly
    /// where one of these keys is absent or has no text, with the first such key, and else `PythonForm` exactly
    /// where the version has another form.
    #[tactic(auto, unfolding(crate::specs::MachineFiles::machine_of))]
    pub fn read(alloc: Global, bytes: &[u8]) -> Result<Machine, EnvFault>
        ensures { Tells (λ m. m) result (machine_of bytes.now) }
    {
        let file = object(alloc, bytes)?;
        machine_in(alloc, &file)
    }
}

// The value that the bytes are.
#[tactic(auto, using(crate::proofs::JsonReading::json_of_ok, crate::proofs::JsonReading::json_of_none))]
fn document(alloc: Global, bytes: &[u8]) -> Result<Value, EnvFault>
    ensures { Tells view result (ok_or (json_of bytes.now) Files.not_json) }
{
    match Value::from_slice(alloc, bytes) {
        Ok(value) => Ok(value),
        Err(error) => {
            if error.is_memory() {
                Err(EnvFault::NoMemory)
            } else {
                Err(EnvFault::NotJson)
            }
        }
    }
}

// The object that the bytes are.
#[tactic(auto, unfolding(crate::specs::MachineFiles::object_of))]
fn object(alloc: Global, bytes: &[u8]) -> Result<Value, EnvFault>
    ensures { Tells view result (object_of bytes.now) }
{
    let value = document(alloc, bytes)?;
    if !value.is_object() {
        return Err(EnvFault::NotJson);
    }
    Ok(value)
}

// The machine that an object says.
#[tactic(auto, unfolding(crate::specs::MachineFiles::machine_in))]
fn machine_in(alloc: Global, file: &Value) -> Result<Machine, EnvFault>
    ensures { Tells (λ m. m) result (machine_in (view file.now)) }
{
    let texts = machine_texts(alloc, file)?;
    let implementation_version = text_in(alloc, file, "implementation_version")?;
    let version = text_in(alloc, file, "python_full_version")?;
    let python = triple(version.as_str()).ok_or(EnvFault::PythonForm)?;
    Ok(Machine {
        python,
        texts,
        implementation_version,
    })
}

// The texts of the text variables, in their order.
fn machine_texts(alloc: Global, file: &Value) -> Result<Vec<String>, EnvFault>
    ensures texts { Tells (λ v. map string_bytes v.items) result (Files.texts_in Files.text_keys (view file.now)) }
    ensures eight { IfOk result (λ v. length v.items ≡ 8) }
{
    texts_in(
        alloc,
        file,
        &[
            "os_name",
            "sys_platform",
            "platform_machine",
            "platform_python_implementation",
            "platform_release",
            "platform_system",
            "platform_version",
            "implementation_name",
        ],
    )
}

// The texts at keys of an object, in their order.
fn texts_in(alloc: Global, file: &Value, keys: &[&str]) -> Result<Vec<String>, EnvFault>
    ensures texts { Tells (λ v. map string_bytes v.items) result
        (Files.texts_in (Files.keys_view keys.now) (view file.now)) }
    ensures each { IfOk result (λ v. length v.items ≡ length keys.now) }
{
    let mut texts = Vec::with_capacity(alloc, keys.len())?;
    for key in keys {
        texts.push(text_in(alloc, file, key)?)?;
    }
    Ok(texts)
}

// The text at a key of an object.
fn text_in(alloc: Global, file: &Value, key: &str) -> Result<String, EnvFault>
    ensures { Tells string_bytes result (Files.text_in key.now (view file.now)) }
{
    let Some(text) = text_at(file, key) else {
        return Err(EnvFault::Missing(String::from_str(alloc, key)?));
    };
    let text = String::from_str(alloc, text)?;
    Ok(text)
}

// The text at a key.
fn text_at<'a>(file: &'a Value, key: &str) -> Option<&'a str>
    ensures { option_map (λ s. s.now) result ≡ text_at key.now (view file.now) }
{
    file.get(key)?.as_str()
}

// The three numbers that stand between the points of a text.
#[tactic(auto, using(crate::proofs::Numerals::number_of_none), unfolding(crate::specs::Triples::triple_of))]
fn triple(text: &str) -> Option<(u32, u32, u32)>
    ensures { result ≡ triple_of text.now }
{
    let (major, rest) = at_point(text)?;
    let (minor, patch) = at_point(rest)?;
    Some((number(major)?, number(minor)?, number(patch)?))
}

// What stands before and after the first point of a text.
fn at_point(text: &str) -> Option<(&str, &str)>
    ensures parts { IfSome result (λ p. IsPointCut text.now p.0.now p.1.now) }
    ensures none { result ≡ None → after_first is_point text.now ≡ [] }
{
    text.split_once('.')
}

// The number that digits write, where it is below 2^32.
fn number(digits: &str) -> Option<u32>
    ensures { result ≡ number_of digits.now }
{
    if digits.starts_with('+') {
        return None;
    }
    digits.parse().ok()
}
