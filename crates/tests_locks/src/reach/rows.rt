//! Which rows are told of a lock, and what is printed of them.
ghost use Rattle.ul_lock.specs.WellFormed.{IsWellFormed};

use crate::reach::locks::text_named;
use std::alloc::Global;
use std::fmt::Write;
use std::sync::Wait;
use tests_rows::{cells, put};
use ul_algebra::{Algebra, DiagramLabel};
use ul_base::Name;
use ul_interner::Interner;
use ul_lock::Lock;
use ul_lock_read::read;
use ul_reach::{ExportFault, ReachFault, Reached, export_text, reach};

// A lock's name, the extras, or `-`, and the text, in which `~` is the end of a line; or `extra` and the first extra
// that the root doesn't have.
const ROWS: &str =
    "leaves - numpy==1.26 ; python_full_version < '3.11.0'~numpy==2.1 ; python_full_version >= '3.11.0'~
leaves gpu extra gpu
platforms dev colorama==0.4.6 ; sys_platform == 'win32'~fastapi==0.110.0~iniconfig==2.0.0~numpy==1.26.4 ; \
python_full_version < '3.11.0'~numpy==2.1.0 ; python_full_version >= '3.11.0'~pytest==8.1.1~starlette==0.36.3~\
tomli==2.0.1 ; python_full_version < '3.11.0'~typing-extensions==4.10.0~
platforms - colorama==0.4.6 ; sys_platform == 'win32'~fastapi==0.110.0~numpy==1.26.4 ; python_full_version < \
'3.11.0'~numpy==2.1.0 ; python_full_version >= '3.11.0'~starlette==0.36.3~typing-extensions==4.10.0~
platforms dev,dev,gpu,cpu extra gpu
cycle - a==1~b==1~
ring - a==1 ; sys_platform == 'linux' or sys_platform == 'win32'~b==1 ; os_name == 'nt' and sys_platform == \
'linux' or os_name == 'nt' and sys_platform == 'win32'~c==1 ; os_name == 'nt' and sys_platform == 'linux' or \
os_name == 'nt' and sys_platform == 'win32' or os_name != 'nt' and sys_platform == 'win32'~c[x]==1 ; \
sys_platform == 'win32'~
extras - a==1 ; os_name == 'nt'~
extras none a==1 ; os_name == 'nt'~
extras dev a==1 ; os_name == 'nt' or os_name == 'posix'~
extras all a==1 ; os_name == 'nt' or os_name == 'posix'~b==1~
supported - b==1~
ways - a==1~b==1~c==1!2.0.post1 ; os_name == 'nt' or os_name == 'posix'~d==1 ; os_name == 'java' or os_name == 'nt' \
or os_name == 'posix'~";

// The names of a cell between commas. What is no name, as `-`, is left out.
pub(crate) fn names(alloc: Global, cell: &str) -> Vec<Name> {
    let mut names = Vec::new(alloc);
    for word in cell.split(',') {
        if let Ok(name) = Name::read(alloc, word) {
            let _ = names.push(name);
        }
    }
    names
}

// What is printed of rows, or why it isn't.
fn printed(alloc: Global, rows: &[Reached]) -> String {
    let mut told = String::new(alloc);
    let _ = match export_text(alloc, rows) {
        Ok(text) => match str::from_utf8(text.as_slice()) {
            Ok(text) => told.push_str(text),
            Err(_) => Ok(()),
        },
        Err(fault) => match fault {
            ExportFault::TooManyPaths { paths } => write!(told, "paths {paths}"),
            ExportFault::TooLong => told.push_str("long"),
            ExportFault::NoMemory => told.push_str("no memory"),
        },
    };
    told
}

fn refused(alloc: Global, fault: &ReachFault) -> String {
    let mut told = String::new(alloc);
    match fault {
        ReachFault::NoExtra(extra) => {
            put(&mut told, "extra ");
            put(&mut told, extra.text());
        }
        ReachFault::NoMemory => put(&mut told, "no memory"),
    }
    told
}

// What is printed of a lock with extras of its root.
fn exported<R: Wait>(
    rt: &R,
    alloc: Global,
    algebra: &mut Algebra<'_>,
    lock: &Lock,
    extras: &[Name],
) -> String
    requires { IsWellFormed lock.now }
{
    match reach(rt, alloc, algebra, lock, extras) {
        Ok(rows) => printed(alloc, rows.as_slice()),
        Err(fault) => refused(alloc, &fault),
    }
}

// What is printed of a lock's text.
pub(crate) fn told<R: Wait>(
    rt: &R,
    alloc: Global,
    algebra: &mut Algebra<'_>,
    text: &str,
    extras: &[Name],
) -> String {
    match read(alloc, text.as_bytes()) {
        Ok(lock) => {
            let told = exported(rt, alloc, algebra, &lock, extras);
            drop(lock);
            told
        }
        Err(_) => String::new(alloc),
    }
}

fn is_told<R: Wait>(rt: &R, alloc: Global, algebra: &mut Algebra<'_>, line: &str) -> bool {
    let (name, rest) = cells(line, ' ');
    let (extras, want) = cells(rest, ' ');
    let extras = names(alloc, extras);
    told(rt, alloc, algebra, text_named(name), extras.as_slice()).as_str() == want
}

fn is_row<R: Wait>(rt: &R, alloc: Global, line: &str) -> bool {
    let (Ok(line), Ok((interner, pass))) = (
        line.replace(alloc, "~", "\n"),
        Interner::<DiagramLabel>::begin(alloc),
    ) else {
        return false;
    };
    let mut algebra = Algebra::begin(alloc, &interner, pass);
    is_told(rt, alloc, &mut algebra, line.as_str())
}

#[test]
fn locks_are_exported(rt: HostRuntime) {
    for line in ROWS.split('\n') {
        assert!(rt; is_row(&rt, rt.alloc(), line), "{line}");
    }
}
