//! Texts of trees, and texts of none.
use crate::marker_text::outcomes::{has_text, is_marker, is_told};
use std::alloc::Global;
use tests_rows::cells;

// What is tried, a case a row. The first word says what the others are:
//
// text MARKER|TEXT: a marker and the text of its tree, which is read again where the tree isn't false.
// refused TEXT: a text that says what some tree does, or nearly, and is the text of none.
// marker, none TEXT: whether a text is a lock's marker. That is no truth and asks for no extra.
// bytes: any bytes may stand in its place.
const ROWS: &str = "text python_version >= '3.8'|python_full_version >= '3.8.0'#\
    text python_full_version >= '3.8'|python_full_version >= '3.8.0'#\
    text python_version in '3.9, 3.10'|python_full_version >= '3.9.0' and python_full_version < '3.11.0'#\
    text os_name == 'a' or os_name != 'a'|*#\
    text os_name == 'a' and os_name != 'a'|false#\
    text os.name == \"nt\"|os_name == 'nt'#\
    text os_name == \"it's\"|os_name == \"it's\"#\
    text os_name != 'b' and os_name != 'a'|os_name != 'a' and os_name != 'b'#\
    text extra == 'A_b'|extra == 'a-b'#\
    text 'x' not in os_name|'x' not in os_name#\
    text os_name not in 'xyz'|os_name not in 'xyz'#\
    text implementation_version != '1' and platform_version <= '2'\
    |platform_version <= '2' and implementation_version != '1'#\
    text python_version == '3.9' or sys_platform == 'win32'\
    |python_full_version < '3.9.0' and sys_platform == 'win32' \
    or python_full_version >= '3.9.0' and python_full_version < '3.10.0' \
    or python_full_version >= '3.10.0' and sys_platform == 'win32'#\
    text os_name == 'a' or 'b' in os_name|os_name == 'a' or os_name != 'a' and 'b' in os_name#\
    text 'x' in extras and sys_platform == 'linux'|sys_platform == 'linux' and 'x' in extras#\
    text 'y' in extras or 'x' not in extras|'x' in extras and 'y' in extras or 'x' not in extras#\
    text 'x' in extras or implementation_version == '1'\
    |implementation_version == '1' or implementation_version != '1' and 'x' in extras#\
    refused #\
    refused  #\
    refused * #\
    refused  *#\
    refused **#\
    refused false#\
    refused os_name == \"nt\"#\
    refused os_name  == 'nt'#\
    refused os_name=='nt'#\
    refused  os_name == 'nt'#\
    refused os_name == 'nt' #\
    refused os_name == 'nt'\n#\
    refused (os_name == 'nt')#\
    refused os.name == 'nt'#\
    refused 'nt' == os_name#\
    refused 'nt' != os_name#\
    refused os_name == 'a'  or os_name == 'b'#\
    refused os_name == 'a' or  os_name == 'b'#\
    refused os_name == 'a' and  sys_platform == 'b'#\
    refused os_name == 'b' or os_name == 'a'#\
    refused os_name == 'a' or os_name == 'a'#\
    refused os_name != 'b' and os_name != 'a'#\
    refused os_name == 'nt' or os_name != 'nt'#\
    refused os_name == 'nt' and os_name != 'nt'#\
    refused os_name == 'a' or sys_platform == 'b'#\
    refused os_name == 'a' or (sys_platform == 'b')#\
    refused os_name == 'a' and (sys_platform == 'b' or sys_platform == 'c')#\
    refused sys_platform == 'x' and os_name == 'y'#\
    refused os_name == 'a' or os_name != 'a' and os_name != 'b'#\
    refused os_name == 'a' and sys_platform == 'x' or os_name != 'a' and sys_platform == 'x'#\
    refused os_name != 'a' and sys_platform == 'x' or os_name == 'a'#\
    refused 'x' in os_name or 'x' not in os_name#\
    refused 'x' not in os_name or 'x' in os_name and sys_platform == 'a'#\
    refused 'y' in os_name and 'x' in os_name#\
    refused python_version >= '3.8'#\
    refused python_full_version >= '3.8'#\
    refused python_full_version >= '3.8.0.0'#\
    refused python_full_version >= '03.8.0'#\
    refused python_full_version >= '0.0.0'#\
    refused python_full_version < '0.0.0'#\
    refused python_full_version >= '4294967296.0.0'#\
    refused python_full_version > '3.8.0'#\
    refused python_full_version <= '3.8.0'#\
    refused python_full_version < '3.9.0' and python_full_version >= '3.8.0'#\
    refused python_full_version >= '3.11.0' or python_full_version < '3.9.0'#\
    refused python_full_version < '3.9.0' or python_full_version >= '3.9.0' and python_full_version < '3.10.0'#\
    refused python_full_version >= '3.9.0' and python_full_version < '3.9.0'#\
    refused extra == 'A'#\
    refused extra == 'a_b'#\
    refused os_name == 'a' and python_full_version >= '3.8.0'#\
    refused 'x' in extras and sys_platform == 'linux'#\
    refused \"x\" in extras#\
    refused 'X' in extras#\
    refused extras in 'x'#\
    marker os_name == 'a'#\
    marker sys_platform == 'linux' and 'x' in extras#\
    none extra == 'a' and 'x' in extras#\
    none *#\
    none extra == 'a'#\
    none os_name == \"a\"#\
    none #\
    bytes";

fn is_text(alloc: Global, row: &str) -> bool {
    let (marker, spelled) = cells(row, '|');
    has_text(alloc, marker, spelled) && (spelled == "false" || is_told(alloc, spelled, "again"))
}

fn is_row(alloc: Global, line: &str) -> bool {
    let (kind, row) = line.split_once(' ').unwrap_or((line, ""));
    match kind {
        "text" => is_text(alloc, row),
        "refused" => is_told(alloc, row, "refused"),
        "marker" => is_marker(alloc, row.as_bytes()),
        "none" => !is_marker(alloc, row.as_bytes()),
        _ => !is_marker(alloc, b"os_name == '\xff'"),
    }
}

#[test]
fn trees_have_their_texts(rt: HostRuntime) {
    for line in ROWS.split('#') {
        assert!(rt; is_row(rt.alloc(), line), "{line}");
    }
}
