//! Problems of small projects, and what stands in them.
use crate::placing::folders::Written;
use crate::placing::problems::is_told_in;
use std::alloc::{AllocError, Global};
use std::sync::Wait;
use std::test::Fail;

// A row has the problem, the region, the project's requirements, its settings, the old lock and the documents.
//
// The problem has its roots and then its nodes, each with the order of its versions, a flag for each version whether it
// is barred, and the needs of each version, by places and flags.
const ROWS: &str = "\
    3 ; a 1 0 -00 | 1:11 | 2:1; c 1 0 -00 | |; d 0 -0 |; demo 0 -0 | 0:11 1:10#sys_platform == 'win32'#'a', 'b; sys_platform == \"linux\"', 'c<2; sys_platform == \"win32\"'###a:1@@c/2@@d;os_name=='nt'|b:1|c:1/2|d:1\n\
    1 ; a 1 0 -01 | |; demo 0 -0 | 0:11#python_full_version >= '3.8' and python_full_version < '3.9'#'a'#fork-strategy = 'requires-python'##a:1@>=3.7/2@>=3.10\n\
    1 ; a 1 0 -00 | |; demo 0 -0 | 0:11#python_full_version >= '3.8' and python_full_version < '3.9'#'a'#fork-strategy = 'requires-python'##a:1@>=3.7/2@>=3.8.5\n\
    1 ; a 1 0 -01 | |; demo 0 -0 | 0:11#python_full_version >= '3.8' and python_full_version < '3.9'#'a'#fork-strategy = 'fewest'##a:1@>=3.7/2@>=3.8.5\n\
    1 ; b 0 -0 |; demo 0 -0 | 0:1#python_version >= '0'#'a<2; sys_platform == \"linux\"', 'a>=2; sys_platform != \"linux\"', 'b'###a:1/2|b:1\n\
    1 ; a 1 0 -00 | |; demo 0 -0 | 0:01#sys_platform == 'win32'#'a<2; sys_platform == \"linux\"', 'a>=2; sys_platform != \"linux\"'###a:1/2|b:1\n\
    3 ; a 0 -0 |; a/x of 0 0 -0 | 2:1; b 0 -0 |; demo 0 -0 | 0:1 1:1#python_version >= '0'#'a[x]'###a:1@@b;extra=='x'|b:1\n\
    1 ; a 2 1 3 0 -0000 | | | |; demo 0 -0 | 0:1111#python_version >= '0'#'a'##a 2.0,b 1,a 3#a:1/2/4/3\n\
    1 ; a 1 0 2 3 -0000 | | | |; demo 0 -0 | 0:1111#python_version >= '0'#'a'#resolution = 'lowest'#a 2.0,b 1#a:1/2/4/3\n\
    1 ; a -; demo 0 -0 | 0:#python_version >= '0'#'a'###b:1\n\
    0 ; demo 0 -0 | 1:10; q 1 0 -00 | 2: | 2:; z -#sys_platform == 'win32'#'q<2; sys_platform == \"win32\"', 'q>=2; sys_platform != \"win32\"'###q:1@@z/2@@z\n\
    1 ; a 0 -0 |; demo 0 -0 | 0:1 0:1#python_version >= '0'#'a; python_version > \"3.7\"', 'a; python_full_version >= \"3.8\"'###a:1\n\
    0 ; demo 0 -0 |#python_version >= '0'#'q>=1', 'q<2; sys_platform == \"win32\"'###q:1/2\n\
    0 ; demo 0 -0 | 1:11 1:10; q 1 0 -00 | |#sys_platform == 'win32'#'q>=1', 'q<2; sys_platform == \"win32\"'###q:1/2\n\
    0 ; demo 0 -0 | 1:1 2:1 3:1; p 0 -0 |; p/none of 1 0 -0 |; p/x of 1 0 -0 | 4:1; q 0 -0 |#python_version >= '0'#'p[x,none]'###p:1@@q;extra=='x'|q:1\n\
    2 ; a 0 -0 | 1:1; b 0 -0 | 0:1; demo 0 -0 | 0:1#python_version >= '0'#'a'###a:1@@b|b:1@@a;python_version>='3.8'\n\
    4 ; a 3 2 1 0 -0000 | 1:1 2:1 3:1 5:1 | 1:1 2:1 3:1 5:1 | 1:1 2:1 3:1 | 1:1 2:1 3:1 5:1; b 0 -0 |; c 0 -0 |; d 0 -0 |; demo 0 -0 | 0:1111; e 0 -0 |#sys_platform == 'linux'#'aa; sys_platform == \"win32\"', 'a'###a:1@@b,c,d,e/2@@b,c,d,e/3@@b,c,d/4@@b,c,d,e|aa:1|b:1|c:1|d:1|e:1\n\
    3 ; a 5 4 3 2 1 0 -000000 | 1:1 2:1 | 1:1 2:1 | 2:1 | 2:1 | | 1:1 2:1; b 0 -0 |; c 0 -0 |; demo 0 -0 | 0:111111#sys_platform == 'linux'#'a'###a:1@@b,c/2@@b,c/3@@b;sys_platform=='win32',c/4@@b;sys_platform=='win32',c/5/6@@b,c|b:1|c:1\n\
    1 ; a 1 0 -01 | |; demo 0 -0 | 0:11#python_full_version >= '3.9'#'a'###a:0.9@>=3.8/1@>=3.10\n\
    0 ; demo 0 -0 | 1:1 2:1 3:1; p 0 -0 |; p/x of 1 0 -0 | 4:011 5:1; p/y of 1 0 -0 | 4:110 5:1; q 2 1 0 -000 | | |; r 0 -0 |#python_version >= '0'#'p[x,y]'###p:1@@q>=1;extra=='x',q<2;extra=='y',r;extra=='x' or extra=='y'|q:0/1/2|r:1\n\
    0 ; demo 0 -0 | 1:1 2:1; p 0 -0 | 3:110; p/x of 1 0 -0 | 3:011; q 2 1 0 -000 | | |#python_version >= '0'#'p[x]'###p:1@@q<2,q>=1;extra=='x'|q:0/1/2\n\
    0 ; demo 0 -0 | 1:1 2:1 3:1; p 0 -0 |; p/x of 1 0 -0 |; p/y of 1 0 -0 | 4:100; q 2 1 0 -000 | | |#python_version >= '0'#'p[x,y]'###p:1@@q>=1;extra=='x' and sys_platform=='win32',q<1;extra=='y',q<2;extra=='x'|q:0/1/2\n\
    0 ; demo 0 -0 | 1:1 2:1 3:1; p 0 -0 |; p/x of 1 0 -0 | 4:011 4:110; p/y of 1 0 -0 | 4:100; q 2 1 0 -000 | | |#sys_platform == 'win32'#'p[x,y]'###p:1@@q>=1;extra=='x' and sys_platform=='win32',q<1;extra=='y',q<2;extra=='x'|q:0/1/2\n\
    0 ; demo 0 -0 | 1:111 2:111; p 2 1 0 -000 | | |; p/x of 1 2 1 0 -000 | 3:1 | 3:1 | 4:1; q 0 -0 |; r 0 -0 |#python_version >= '0'#'p[x]'###p:1@@q;extra=='x'/2@@q;extra=='x'/3@@r;extra=='x'|q:1|r:1\n\
    0 ; demo 0 -0 | 1:1 2:1; p 0 -0 | 3:1; p/x of 1 0 -0 |; q 0 -0 |#python_version >= '0'#'p[x]'###p:1@@q;extra!='x',q;extra=='y'|q:1";

// The row's parts behind a `#`: the first, and the rest.
fn cut(text: &str) -> (&str, &str) {
    text.split_once('#').unwrap_or((text, ""))
}

// The project's file with these requirements and settings.
fn file_of(alloc: Global, requirements: &str, settings: &str) -> Result<String, AllocError> {
    format!(in alloc;
        "[project]\nname = 'demo'\ndependencies = [{requirements}]\n[tool.uv]\n{settings}\n"
    )
}

// Whether a problem is told of a row.
fn is_found<R: Wait>(rt: &R, alloc: Global, row: &str, want: &str) -> Result<bool, Fail> {
    let (region, rest) = cut(row);
    let (requirements, rest) = cut(rest);
    let (settings, rest) = cut(rest);
    let (kept, text) = cut(rest);
    let file = file_of(alloc, requirements, settings)?;
    let mut files = Written::new(alloc, text);
    is_told_in(rt, alloc, file.as_str(), &mut files, kept, region, want)
}

fn is_row<R: Wait>(rt: &R, alloc: Global, line: &str) -> Result<bool, Fail> {
    let (want, row) = cut(line);
    is_found(rt, alloc, row, want)
}

#[test]
fn small_projects(rt: HostRuntime) -> Result<(), Fail> {
    for line in ROWS.lines() {
        assert!(rt; is_row(&rt, rt.alloc(), line)?, "{line}");
    }
    Ok(())
}
