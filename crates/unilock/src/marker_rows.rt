// The canonical texts of markers.

/// Files of markers, and what `marker` prints of them. The form is that of `CHOICES`.
pub(crate) const MARKERS: &str = r#"
@f
python_version >= '3.9'
sys_platform == 'a' or sys_platform != 'a'
os_name == 'a' and os_name == 'b'
'x' in extras and 'x' in extras
python_version in '3.9, 3.10'
*
never
'b' not in extras or 'a' in extras
'a' in extras or 'b' not in extras
~
marker f
=0
python_full_version >= '3.9.0'
*
never
'x' in extras
python_full_version >= '3.9.0' and python_full_version < '3.11.0'
*
never
'a' in extras or 'a' not in extras and 'b' not in extras
'a' in extras or 'a' not in extras and 'b' not in extras
~
marker printed
=0
python_full_version >= '3.9.0'
*
never
'x' in extras
python_full_version >= '3.9.0' and python_full_version < '3.11.0'
*
never
'a' in extras or 'a' not in extras and 'b' not in extras
'a' in extras or 'a' not in extras and 'b' not in extras
~
marker g
@g
*
extra == 'x'
=3
malformed: g: line 2
~
marker g
@g
'X' in extras
=3
malformed: g: line 1
~
marker g
@g

=3
malformed: g: line 1
~
marker g
=3
malformed: g: absent
~
marker
=2
usage: unilock lock|why|env|check|gen|export|verify WORDS
~
marker f f
=2
usage: unilock lock|why|env|check|gen|export|verify WORDS
"#;
