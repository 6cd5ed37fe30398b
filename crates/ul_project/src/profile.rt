//! The profile of a project file: which keys are read, and how.

ghost use Rattle.std.specs.Prelude.{◌≡◌};
ghost use Rattle.toml.specs.View.{table_view};
ghost use Rattle.ul_project.specs.Answers.{Gives, members_view, value_view};
ghost use Rattle.ul_project.specs.Profiles as spec;

use crate::shapes::{at_key, optional_table_at, text_or, value_at, value_in};
use crate::{ProjectFault, ProjectKey};
use toml::{Table, Value};

/// How a project file is read: its `tool.unilock.profile`.
#[derive(Clone, Copy)]
pub enum Profile {
    /// What the standards say is read, and what goes beyond them is refused.
    Strict,
    /// Project files are read as teams have them: with requirements by a URL, modes of pre-releases, `dev-dependencies`,
    /// and keys that only say where documents come from.
    Wide,
}

// A table; anything else is as nothing.
fn table_of<'a>(value: Option<&'a Value>) -> Option<&'a Table>
    ensures { members_view result ≡ spec.members_of (value_view value.entry) }
{
    match value {
        Some(Value::Table(table)) => Some(table),
        _ => None,
    }
}

// The profile that a value asks for.
fn asked_profile(value: Option<&Value>) -> Profile
    ensures { result ≡ spec.asked_profile (value_view value.entry) }
{
    match value {
        Some(Value::String(word)) if word.as_str() == "wide" => Profile::Wide,
        _ => Profile::Strict,
    }
}

// The profile by which a document is read, whatever is wrong with its keys.
#[tactic(auto, unfolding(crate::specs::Profiles::profile_of))]
pub(crate) fn profile_of(document: &Table) -> Profile
    ensures { result ≡ spec.profile_of (table_view document.now) }
{
    let tool = table_of(value_at(document, "tool"));
    let unilock = table_of(value_in(tool, "unilock"));
    asked_profile(value_in(unilock, "profile"))
}

// The profile of a word.
fn profile_by(word: &str) -> Option<Profile>
    ensures { result ≡ spec.profile_by word.now }
{
    match word {
        "strict" => Some(Profile::Strict),
        "wide" => Some(Profile::Wide),
        _ => None,
    }
}

// The profile that the table `tool` asks for, where it is well said.
#[tactic(auto, unfolding(crate::specs::Profiles::profile_at))]
pub(crate) fn profile_at(tool: Option<&Table>) -> Result<Profile, ProjectFault>
    ensures { Gives (λ p. p) result (spec.profile_at (members_view tool.entry)) }
{
    let unilock = optional_table_at(ProjectKey::Unilock, value_in(tool, "unilock"))?;
    let word = text_or("strict", ProjectKey::Profile, value_in(unilock, "profile"))?;
    match profile_by(word) {
        Some(profile) => Ok(profile),
        None => Err(ProjectFault::Shape(at_key(ProjectKey::Profile))),
    }
}
