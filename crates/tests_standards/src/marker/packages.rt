//! Markers, some from the metadata of published packages, evaluated at three machines.

use crate::marker::worlds::{holds_at, worlds};
use std::alloc::Global;
use tests_rows::cells;
use ul_marker::{Marker, MarkerFault};

// The files of three machines, and behind each the opaque comparisons of the markers below that hold on it.
const MACHINES: &str = "\
    {\"os_name\": \"posix\", \"sys_platform\": \"linux\", \"platform_machine\": \"x86_64\", \
    \"platform_python_implementation\": \"CPython\", \"platform_release\": \"6.8.0-45-generic\", \
    \"platform_system\": \"Linux\", \"implementation_name\": \"cpython\", \
    \"platform_version\": \"#45-Ubuntu SMP Fri Aug 30 12:02:04 UTC 2024\", \
    \"implementation_version\": \"3.12.3\", \"python_full_version\": \"3.12.3\"}|\
    'linux' in sys_platform and \
    sys_platform in 'linux linux2' and \
    '64' in platform_machine and \
    platform_machine in 'x86_64 AMD64' and \
    platform_machine in 'x86_64 X86_64 aarch64 AARCH64 ppc64le amd64 AMD64 win32 WIN32' and \
    'Py' in platform_python_implementation and \
    'generic' in platform_release and \
    platform_system in 'Linux Darwin' and \
    'Ubuntu' in platform_version and \
    implementation_name in 'cpython pypy';\
    {\"os_name\": \"nt\", \"sys_platform\": \"win32\", \"platform_machine\": \"AMD64\", \
    \"platform_python_implementation\": \"CPython\", \"platform_release\": \"10\", \"platform_system\": \"Windows\", \
    \"platform_version\": \"10.0.19041\", \"implementation_name\": \"cpython\", \
    \"implementation_version\": \"3.8.10\", \"python_full_version\": \"3.8.10\"}|\
    'win' in sys_platform and \
    sys_platform in 'darwin win32 cygwin' and \
    '64' in platform_machine and \
    platform_machine in 'x86_64 AMD64' and \
    platform_machine in 'x86_64 X86_64 aarch64 AARCH64 ppc64le amd64 AMD64 win32 WIN32' and \
    'Py' in platform_python_implementation and \
    implementation_name in 'cpython pypy';\
    {\"os_name\": \"posix\", \"sys_platform\": \"darwin\", \"platform_machine\": \"arm64\", \
    \"platform_python_implementation\": \"PyPy\", \"platform_release\": \"23.1.0\", \"platform_system\": \"Darwin\", \
    \"platform_version\": \"Darwin Kernel Version 23.1.0\", \"implementation_name\": \"pypy\", \
    \"implementation_version\": \"3.9.18\", \"python_full_version\": \"3.9.18\"}|\
    'win' in sys_platform and \
    sys_platform in 'darwin win32 cygwin' and \
    '64' in platform_machine and \
    'arm' in platform_machine and \
    'Py' in platform_python_implementation and \
    'PyPy' in platform_python_implementation and \
    platform_system in 'Linux Darwin' and \
    'Darwin' in platform_version and \
    implementation_name in 'cpython pypy'";

// Markers from the metadata of published packages (`Requires-Dist`), and whether each holds on each machine with the
// extra `test`, as PyPA's `packaging` 21.3 answers.
const PUBLISHED: &str = "000 (platform_python_implementation != \"PyPy\") and extra == 'gmpy'\n\
    000 (platform_python_implementation != \"PyPy\") and extra == 'testing'\n\
    000 (platform_python_implementation != 'CPython') and extra == 'brotli'\n\
    000 (platform_python_implementation == 'CPython') and extra == 'brotli'\n\
    001 (platform_python_implementation == 'PyPy') and extra == 'test'\n\
    000 (platform_system != \"Windows\") and extra == 'dev'\n\
    000 (python_version < '3.14') and extra == 'zstd'\n\
    000 (python_version >= '3.9' and platform_system == 'Windows') and extra == 'timezone'\n\
    000 extra == \"all\"\n\
    000 extra == \"apigateway\"\n\
    000 extra == \"apigatewayv2\"\n\
    000 extra == \"appsync\"\n\
    000 extra == \"astroid\"\n\
    000 extra == \"async\"\n\
    000 extra == \"awslambda\"\n\
    000 extra == \"batch\"\n\
    000 extra == \"benchmarking\"\n\
    000 extra == \"cli\"\n\
    000 extra == \"cloudformation\"\n\
    000 extra == \"cognitoidp\"\n\
    000 extra == \"default\"\n\
    000 extra == \"dev\"\n\
    000 extra == \"developer\"\n\
    000 extra == \"diagrams\"\n\
    000 extra == \"doc\"\n\
    000 extra == \"dotenv\"\n\
    000 extra == \"drafts\"\n\
    000 extra == \"dynamodb\"\n\
    000 extra == \"dynamodbstreams\"\n\
    000 extra == \"ecma-regex\"\n\
    000 extra == \"events\"\n\
    000 extra == \"example\"\n\
    000 extra == \"extra\"\n\
    000 extra == \"full\"\n\
    000 extra == \"glue\"\n\
    000 extra == \"graph\"\n\
    000 extra == \"i18n\"\n\
    000 extra == \"junit\"\n\
    000 extra == \"proxy\"\n\
    000 extra == \"quicksight\"\n\
    000 extra == \"release\"\n\
    000 extra == \"requests\"\n\
    000 extra == \"resourcegroupstaggingapi\"\n\
    000 extra == \"s3\"\n\
    000 extra == \"s3crc32c\"\n\
    000 extra == \"sarif\"\n\
    000 extra == \"server\"\n\
    000 extra == \"socks\"\n\
    000 extra == \"ssm\"\n\
    000 extra == \"stepfunctions\"\n\
    111 extra == \"test\"\n\
    000 extra == \"test-extras\"\n\
    000 extra == \"tests\"\n\
    000 extra == \"use-chardet-on-py3\"\n\
    000 extra == \"watchdog\"\n\
    000 extra == \"xray\"\n\
    000 extra == 'all'\n\
    000 extra == 'aws-secrets-manager'\n\
    000 extra == 'azure-key-vault'\n\
    000 extra == 'black'\n\
    000 extra == 'crt'\n\
    000 extra == 'dev'\n\
    000 extra == 'develop'\n\
    000 extra == 'doc'\n\
    000 extra == 'docs'\n\
    000 extra == 'email'\n\
    000 extra == 'format'\n\
    000 extra == 'format-nongpl'\n\
    000 extra == 'gcp-secret-manager'\n\
    000 extra == 'h2'\n\
    000 extra == 'kernel'\n\
    000 extra == 'nbconvert'\n\
    000 extra == 'nbformat'\n\
    000 extra == 'notebook'\n\
    000 extra == 'parallel'\n\
    000 extra == 'qa'\n\
    000 extra == 'qtconsole'\n\
    000 extra == 'socks'\n\
    000 extra == 'ssh'\n\
    111 extra == 'test'\n\
    000 extra == 'test_extra'\n\
    000 extra == 'testing'\n\
    000 extra == 'testing-integration'\n\
    000 extra == 'tests'\n\
    000 extra == 'toml'\n\
    000 extra == 'websockets'\n\
    000 extra == 'windows-terminal'\n\
    000 extra == 'yaml'\n\
    111 implementation_name != \"PyPy\"\n\
    010 os_name == \"nt\" and implementation_name != \"pypy\"\n\
    110 platform_python_implementation != 'PyPy'\n\
    010 platform_system == 'Windows'\n\
    011 python_full_version < '3.11'\n\
    011 python_version < \"3.10\"\n\
    011 python_version < \"3.11\"\n\
    000 python_version < \"3.11\" and extra == \"tests\"\n\
    000 python_version < \"3.5\"\n\
    000 python_version < \"3.7\"\n\
    011 python_version < '3.10'\n\
    111 python_version < '3.13'\n\
    010 python_version < '3.9'\n\
    000 python_version >= \"3.11\" and extra == \"tests\"\n\
    000 python_version in \"2.6 2.7 3.2 3.3\"\n\
    101 sys_platform != \"win32\"\n\
    001 sys_platform == \"darwin\"\n\
    010 sys_platform == \"win32\"\n\
    010 sys_platform == 'win32'";

// The same for markers in other common forms, written for this test.
const MARKERS: &str = "010 python_version < \"3.11\" and platform_python_implementation != 'PyPy'\n\
    000 python_version < '3.8'\n\
    111 python_version >= \"3.8\"\n\
    000 python_version <= \"3.6\"\n\
    100 python_version == \"3.12\"\n\
    111 python_version > \"3.7\" and python_version < \"3.13\"\n\
    111 python_version < \"3.10\" or python_version >= \"3.12\"\n\
    110 python_version != \"3.9\"\n\
    111 python_version ~= \"3.8\"\n\
    111 python_version == \"3.*\"\n\
    110 python_version in \"2.7 3.6 3.8 3.12\"\n\
    111 python_version not in \"2.7, 3.0, 3.1, 3.2\"\n\
    011 python_full_version < \"3.11.0a7\"\n\
    011 python_full_version <= \"3.11.0a6\"\n\
    101 python_full_version >= \"3.9.1\"\n\
    010 python_full_version == \"3.8.10\"\n\
    110 python_full_version != \"3.9.18\"\n\
    001 python_full_version > \"3.8.10\" and python_full_version < \"3.12.3\"\n\
    010 python_full_version ~= \"3.8.5\"\n\
    010 sys_platform == \"win32\"\n\
    001 sys_platform == 'darwin'\n\
    101 sys_platform != \"win32\"\n\
    100 sys_platform == \"linux\" or sys_platform == \"linux2\"\n\
    100 \"linux\" in sys_platform\n\
    000 'bsd' in sys_platform\n\
    100 sys_platform not in \"darwin win32 cygwin\"\n\
    100 sys_platform in \"linux linux2\"\n\
    010 os_name == \"nt\"\n\
    101 os_name == 'posix'\n\
    100 os_name != \"nt\" and sys_platform != \"darwin\"\n\
    010 os_name == \"nt\" and implementation_name != \"pypy\"\n\
    010 platform_system == \"Windows\"\n\
    101 platform_system != \"Windows\"\n\
    001 platform_system == \"Darwin\"\n\
    100 platform_system == 'Linux' and platform_machine == 'x86_64'\n\
    101 platform_system in \"Linux Darwin\"\n\
    000 platform_system == \"Emscripten\"\n\
    100 platform_machine == \"x86_64\"\n\
    001 platform_machine == \"aarch64\" or platform_machine == \"arm64\"\n\
    111 platform_machine != \"ppc64le\" and platform_machine != \"s390x\"\n\
    110 platform_machine in \"x86_64 X86_64 aarch64 AARCH64 ppc64le amd64 AMD64 win32 WIN32\"\n\
    111 platform_machine not in \"s390x ppc64le\"\n\
    001 \"arm\" in platform_machine\n\
    111 '64' in platform_machine\n\
    110 platform_python_implementation == \"CPython\"\n\
    110 platform_python_implementation != \"PyPy\"\n\
    001 platform_python_implementation == 'PyPy' and python_version < '3.10'\n\
    000 platform_python_implementation == \"Jython\"\n\
    111 'Py' in platform_python_implementation\n\
    110 implementation_name == \"cpython\"\n\
    001 implementation_name == 'pypy'\n\
    010 implementation_name != \"pypy\" and os_name == \"nt\"\n\
    111 implementation_name in \"cpython pypy\"\n\
    111 extra == \"test\"\n\
    000 extra == 'docs'\n\
    111 extra != \"docs\"\n\
    000 extra == 'te st'\n\
    011 extra == \"test\" and python_version < \"3.11\"\n\
    101 extra == \"test\" and sys_platform != \"win32\"\n\
    111 (extra == \"docs\" or extra == \"test\") and python_version >= \"3.8\"\n\
    001 extra == 'dev' or (extra == 'test' and platform_system == 'Darwin')\n\
    000 python_version < \"3.8\" and extra == \"test\"\n\
    010 (python_version < \"3.9\") and extra == 'test'\n\
    001 platform_python_implementation == \"PyPy\" and extra == \"test\"\n\
    010 (sys_platform == \"win32\" or sys_platform == \"cygwin\") and python_version < \"3.9\"\n\
    100 (platform_system == \"Linux\" and platform_machine == \"x86_64\") and python_version >= \"3.8\"\n\
    110 platform_machine == \"aarch64\" or (platform_machine == \"ppc64le\" or (platform_machine == \"x86_64\" or (platform_machine == \"amd64\" or (platform_machine == \"AMD64\" or (platform_machine == \"win32\" or platform_machine == \"WIN32\")))))\n\
    110 python_version >= \"3\" and platform_machine == \"aarch64\" or python_version >= \"3\" and platform_machine == \"x86_64\" or python_version >= \"3\" and platform_machine == \"AMD64\"\n\
    100 (python_version >= \"3.10\" and python_version < \"3.12\") or python_version >= \"3.12\"\n\
    001 python_version < \"3.11\" and python_version >= \"3.9\"\n\
    101 python_version>=\"3.9\" and python_version<\"3.13\"\n\
    000 python_version<'3.4'\n\
    000 python_version==\"2.7\"\n\
    010 sys_platform=='win32'\n\
    010 platform_system==\"Windows\"and python_version>=\"3.8\"\n\
    111 \"3.8\" <= python_version\n\
    011 '3.10' > python_version\n\
    010 'win32' == sys_platform\n\
    101 \"win32\" != sys_platform\n\
    100 'posix' == os_name and \"3.9\" < python_version\n\
    010 os.name == \"nt\"\n\
    001 sys.platform == \"darwin\"\n\
    100 platform.machine == 'x86_64'\n\
    001 platform.python_implementation == \"PyPy\"\n\
    110 python_implementation == 'CPython'\n\
    100 python_implementation != \"PyPy\" and sys.platform != \"win32\"\n\
    010 platform_version == \"10.0.19041\"\n\
    001 'Darwin' in platform_version\n\
    100 \"Ubuntu\" in platform_version or 'Debian' in platform_version\n\
    100 'generic' in platform_release\n\
    001 platform_release == \"23.1.0\"\n\
    000 python_full_version < \"3.7.0\" and python_full_version >= \"3.6.1\"\n\
    000 python_version < \"3.7\" and sys_platform == \"win32\" and platform_python_implementation == \"CPython\"\n\
    010 sys_platform == \"win32\" and python_version >= \"3.6\" and python_version < \"4.0\"\n\
    100 (os_name != \"nt\" or sys_platform != \"win32\") and (python_version < \"3.9\" or python_version > \"3.11\")\n\
    100 ((python_version >= \"3.8\") and ((sys_platform == \"linux\")))\n\
    100 python_version >= \"3.8\" and (sys_platform == \"linux\" or sys_platform == \"darwin\") and platform_python_implementation == \"CPython\"\n\
    000 platform_system != \"Darwin\" and platform_system != \"Linux\" and platform_system != \"Windows\"\n\
    111 sys_platform != \"cygwin\" and sys_platform != \"win32\" or python_version < \"3.9\"\n\
    111 platform_system != \"Windows\" and python_version < \"3.13\" or platform_machine == \"AMD64\" and os_name == \"nt\"\n\
    101 \"Linux\" == platform_system or \"Darwin\" == platform_system\n\
    010 implementation_name == \"cpython\" and (python_version == \"3.8\" or python_version == \"3.9\")\n\
    001 platform_machine == \"arm64\" and platform_system == \"Darwin\" and python_version >= \"3.9\"\n\
    100 python_version >= \"3.12\" and \"3.13\" > python_version and sys_platform == \"linux\"\n\
    011 python_version == \"3.8.*\" or python_version == \"3.9.*\"\n\
    100 python_full_version == \"3.12.*\" and implementation_name == 'cpython'\n\
    111 python_version < '4' and python_version != '3.10.*'\n\
    110 'PyPy' not in platform_python_implementation\n\
    100 \"win\" not in sys_platform\n\
    001 platform_machine not in 'x86_64 AMD64' and python_version >= '3.6.2'";

// The same for markers of which `packaging` says otherwise, `---` where there is no reading, and the reason.
const OWN: &str = "000 platform_release == '10.0'|texts are compared as texts, not as versions\n\
    111 platform_release != '10.0'|texts are compared as texts, not as versions\n\
    000 python_version in '3.81, 3.123'|`in` asks for a version of the list, not for a substring\n\
    010 python_version in '3.08,2.7'|a list's version is compared by `==`\n\
    111 extra == 'TEST'|an extra is compared in its normal form\n\
    --- os_name ~= 'nt'|`~=` has no reading beside a text variable\n\
    --- 'a' == 'a'|one side is a variable\n\
    --- os_name == sys_platform|one side is a literal\n\
    --- extra in 'test'|`extra` stands with `==` and `!=` alone\n\
    --- extra < 'test'|`extra` stands with `==` and `!=` alone\n\
    --- '3' ~= python_version|`~=` isn't mirrored\n\
    --- python_version == 'three'|a literal beside a Python variable is a version\n\
    --- python_version === '3.8'|this operator is left out";

// Whether a marker holds with the extra `test` on those machines where the digits say so.
fn holds_on_machines(alloc: Global, marker: &Marker, digits: &str) -> bool {
    let worlds = worlds(alloc, MACHINES);
    holds_at(worlds.as_slice(), "test", marker, digits)
}

fn is_row(alloc: Global, line: &str) -> bool {
    let (case, _) = cells(line, '|');
    let (want, text) = cells(case, ' ');
    match Marker::read(alloc, text) {
        Ok(marker) => {
            let holds = holds_on_machines(alloc, &marker, want);
            drop(marker);
            holds
        }
        Err(MarkerFault::NoReading) => want == "---",
        Err(MarkerFault::NoMemory) => false,
    }
}

#[test]
fn markers_hold_as_in_packaging(rt: HostRuntime) {
    for table in [PUBLISHED, MARKERS, OWN] {
        for line in table.lines() {
            assert!(rt; is_row(rt.alloc(), line), "{line}");
        }
    }
}
