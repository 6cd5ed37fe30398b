//! Reading a lock.

ghost use Rattle.std.specs.Prelude.{◌≡◌, true};
ghost use Rattle.ul_lock_read.specs.Answers.{Judged};
ghost use Rattle.ul_lock_read.specs.Headline.{ReadsLock};
ghost use Rattle.ul_lock.specs.Targets.{first_without_target, has_one_root};
ghost use Rattle.ul_lock_write.specs.Texts.{lock_of};
ghost use Rattle.ul_lock_read.specs.ShapedTexts.{IsText};

use crate::targets::{is_one_root, package_without_target};
use crate::texts::{ShapeFault, shape};
use std::alloc::Global;
use ul_lock::Lock;
use ul_lock_write::{Head, Sheet};

/// Why a text is no lock's.
#[derive(Drop)]
pub enum LockFault {
    /// The first line that no shaped text has there, from 1; one more than there are, if the text only ends too early.
    Line(u64),
    /// Not exactly one package has the root's name.
    Root,
    /// The first package, from 0, with an edge that leads to no package of the lock, or to an extra that it doesn't
    /// list.
    Target(u64),
    /// Memory ran out.
    NoMemory,
}

fn lock_from(sheet: Sheet) -> Lock
    ensures { result ≡ lock_of sheet }
{
    let Sheet { head, packages } = sheet;
    let Head {
        edition: _,
        root,
        supported,
        forks,
    } = head;
    Lock {
        root,
        supported,
        forks,
        packages,
    }
}

fn has_root(sheet: &Sheet) -> bool
    ensures { result ≡ has_one_root sheet.now.head.root sheet.now.packages }
{
    is_one_root(&sheet.head.root, sheet.packages.as_slice())
}

fn place_without_target(sheet: &Sheet) -> Option<usize>
    requires { IsText sheet.now }
    ensures { result ≡ first_without_target sheet.now.packages }
{
    package_without_target(sheet.packages.as_slice())
}

// The targets, where there is one root.
fn lock_with_targets(sheet: Sheet) -> Result<Lock, LockFault>
    requires text { IsText sheet }
    requires root { has_one_root sheet.head.root sheet.packages ≡ true }
    ensures { Judged result sheet }
{
    match place_without_target(&sheet) {
        None => Ok(lock_from(sheet)),
        Some(k) => {
            drop(sheet);
            Err(LockFault::Target(k as u64))
        }
    }
}

fn lock_with_root(sheet: Sheet) -> Result<Lock, LockFault>
    requires { IsText sheet }
    ensures { Judged result sheet }
{
    if has_root(&sheet) {
        lock_with_targets(sheet)
    } else {
        drop(sheet);
        Err(LockFault::Root)
    }
}

/// The lock of a text, in either version of the format.
///
/// The faults come in the order `Line`, `Root`, `Target`, exactly.
pub fn read(alloc: Global, bytes: &[u8]) -> Result<Lock, LockFault>
    ensures { ReadsLock bytes.now result }
{
    match shape(alloc, bytes) {
        Err(fault) => match fault {
            ShapeFault::Line(n) => Err(LockFault::Line(n)),
            ShapeFault::NoMemory => Err(LockFault::NoMemory),
        },
        Ok(sheet) => lock_with_root(sheet),
    }
}
