//! Requirements from the metadata of published packages.

use std::alloc::{AllocError, Global};
use tests_rows::put;
use ul_base::Name;
use ul_marker::{Atom, EnvFault, Machine, World, world_of};
use ul_requirement::Requirement;
use ul_specifier::{Clause, Op, Specifiers};

// The machine files of three interpreters, a line each.
const MACHINES: &str =
    "{\"os_name\": \"posix\", \"sys_platform\": \"linux\", \"platform_machine\": \"x86_64\", \"platform_python_implementation\": \"CPython\", \"platform_release\": \"6.8.0-45-generic\", \"platform_system\": \"Linux\", \"platform_version\": \"#45-Ubuntu\", \"implementation_name\": \"cpython\", \"implementation_version\": \"3.12.3\", \"python_full_version\": \"3.12.3\"}\n\
    {\"os_name\": \"nt\", \"sys_platform\": \"win32\", \"platform_machine\": \"AMD64\", \"platform_python_implementation\": \"CPython\", \"platform_release\": \"10\", \"platform_system\": \"Windows\", \"platform_version\": \"10.0.19041\", \"implementation_name\": \"cpython\", \"implementation_version\": \"3.8.10\", \"python_full_version\": \"3.8.10\"}\n\
    {\"os_name\": \"posix\", \"sys_platform\": \"darwin\", \"platform_machine\": \"arm64\", \"platform_python_implementation\": \"PyPy\", \"platform_release\": \"23.1.0\", \"platform_system\": \"Darwin\", \"platform_version\": \"Darwin Kernel\", \"implementation_name\": \"pypy\", \"implementation_version\": \"7.3.11\", \"python_full_version\": \"2.7.18\"}";

// Requirements from the metadata of published packages (`Requires-Dist`), and what PyPA's `packaging` 21.3 answers:
// whether the marker holds on each machine without an extra, and with the extra; the name, the extras, the clauses
// in byte order, and the extra.
const PUBLISHED: &str = "000111|babel||>=2.7|i18n|Babel>=2.7 ; extra == \"i18n\"\n\
    000111|django|||dev|Django ; extra == 'dev'\n\
    000111|jinja2||==3.1.6|docs|Jinja2 ==3.1.6 ; extra == 'docs'\n\
    111111|markupsafe||>=2.0|other|MarkupSafe>=2.0\n\
    000111|pysocks||!=1.5.7,>=1.5.6|socks|PySocks!=1.5.7,>=1.5.6; extra == \"socks\"\n\
    111111|pyyaml||<6.1,>=3.10|other|PyYAML (<6.1,>=3.10)\n\
    111111|pyyaml||>=5.1|other|PyYAML (>=5.1)\n\
    000111|sphinx||>=5.1.1|dev|Sphinx (>=5.1.1) ; extra == 'dev'\n\
    000111|sphinx||>=7|doc|Sphinx >=7 ; extra == 'doc'\n\
    111111|annotated-types||>=0.6.0|other|annotated-types>=0.6.0\n\
    000111|antlr4-python3-runtime|||all|antlr4-python3-runtime; extra == \"all\"\n\
    000111|appdirs||==1.4.4|test|appdirs==1.4.4; extra == 'test'\n\
    001001|appnope|||other|appnope ; sys_platform == \"darwin\"\n\
    000111|argcomplete||>=3.0.3|test|argcomplete>=3.0.3; extra == 'test'\n\
    000111|astroid||<5,>=2|astroid|astroid<5,>=2; extra == \"astroid\"\n\
    111111|asttokens||>=2.1.0|other|asttokens >=2.1.0\n\
    000111|asttokens||>=2.1.0|tests|asttokens>=2.1.0; extra == \"tests\"\n\
    000111|asv|||benchmarking|asv; extra == \"benchmarking\"\n\
    111111|attrs||>=20.1.0|other|attrs (>=20.1.0)\n\
    111111|attrs||>=22.2.0|other|attrs>=22.2.0\n\
    111111|autocommand|||other|autocommand\n\
    111111|aws-sam-translator||>=1.109.0|other|aws-sam-translator>=1.109.0\n\
    000111|aws-xray-sdk||!=0.96,>=0.93|all|aws-xray-sdk!=0.96,>=0.93; extra == \"all\"\n\
    000111|awscrt||==0.32.2|crt|awscrt (==0.32.2) ; extra == 'crt'\n\
    000111|azure-identity||>=1.16.0|azure-key-vault|azure-identity>=1.16.0; extra == 'azure-key-vault'\n\
    000111|azure-keyvault-secrets||>=4.8.0|azure-key-vault|azure-keyvault-secrets>=4.8.0; extra == 'azure-key-vault'\n\
    000111|backports-zstd||>=1.0.0|zstd|backports-zstd>=1.0.0; (python_version < '3.14') and extra == 'zstd'\n\
    011011|backports-tarfile|||other|backports.tarfile ; python_version < \"3.12\"\n\
    000111|bcrypt||>=3.1.5|ssh|bcrypt>=3.1.5 ; extra == 'ssh'\n\
    000111|big-o|||test|big-O ; extra == 'test'\n\
    000111|black||==26.3.1|dev|black==26.3.1; extra == \"dev\"\n\
    000111|boto3-stubs|appconfig serverlessrepo|<2.0.0,>=1.34.0|dev|boto3-stubs[appconfig,serverlessrepo]<2.0.0,>=1.34.0; extra == \"dev\"\n\
    111111|boto3||<2.0.0,>=1.34.0|other|boto3<2.0.0,>=1.34.0\n\
    000111|boto3||<2.0.0,>=1.34.0|dev|boto3<2.0.0,>=1.34.0; extra == \"dev\"\n\
    000111|boto3||>=1.35.0|aws-secrets-manager|boto3>=1.35.0; extra == 'aws-secrets-manager'\n\
    111111|botocore||<1.44.0,>=1.43.11|other|botocore (<1.44.0,>=1.43.11)\n\
    111111|botocore||==1.43.11|other|botocore (==1.43.11)\n\
    111111|botocore||!=1.35.45,!=1.35.46,>=1.20.88|other|botocore!=1.35.45,!=1.35.46,>=1.20.88\n\
    000110|brotli||>=1.2.0|brotli|brotli>=1.2.0; (platform_python_implementation == 'CPython') and extra == 'brotli'\n\
    000001|brotlicffi||>=1.2.0.0|brotli|brotlicffi>=1.2.0.0; (platform_python_implementation != 'CPython') and extra == 'brotli'\n\
    000111|certifi||==2016.9.26|certs|certifi (==2016.9.26); extra == 'certs'\n\
    010010|cffi||>=1.14|other|cffi (>=1.14) ; os_name == \"nt\" and implementation_name != \"pypy\"\n\
    110110|cffi||>=1.12|other|cffi>=1.12 ; platform_python_implementation != 'PyPy'\n\
    110110|cffi||>=2.0.0|other|cffi>=2.0.0 ; platform_python_implementation != 'PyPy'\n\
    000111|cfn-lint||>=0.40.0|all|cfn-lint>=0.40.0; extra == \"all\"\n\
    000111|changelist||==0.5|release|changelist==0.5; extra == \"release\"\n\
    000111|chardet||<8,>=3.0.2|use-chardet-on-py3|chardet<8,>=3.0.2; extra == \"use-chardet-on-py3\"\n\
    000111|charset-normalizer||==3.4.7|docs|charset-normalizer ==3.4.7 ; extra == 'docs'\n\
    111111|charset-normalizer||<4,>=2|other|charset_normalizer<4,>=2\n\
    010010|colorama|||other|colorama; platform_system == 'Windows'\n\
    000111|colorama||>=0.4.6|windows-terminal|colorama>=0.4.6; extra == 'windows-terminal'\n\
    000111|coverage||<8,>=5.3|dev|coverage<8,>=5.3; extra == \"dev\"\n\
    111111|cryptography||<44,>=41.0.5|other|cryptography <44,>=41.0.5\n\
    000111|cryptography-vectors||==43.0.1|test|cryptography-vectors==43.0.1 ; extra == 'test'\n\
    001001|dataclasses||>=0.6.0|other|dataclasses (>=0.6.0) ; python_version < \"3.7\"\n\
    111111|docutils||<=0.19,>=0.18.1|other|docutils (<=0.19,>=0.18.1)\n\
    000111|email-validator||>=2.0.0|email|email-validator>=2.0.0; extra == 'email'\n\
    000111|filelock||>=3.4.0|testing-integration|filelock (>=3.4.0) ; extra == 'testing-integration'\n\
    000111|flake8||<5|testing|flake8 (<5) ; extra == 'testing'\n\
    000111|flake8||<5,>=3.7.8|dev|flake8 (<5,>=3.7.8) ; extra == 'dev'\n\
    000110|flake8-2020|||tests|flake8-2020 ; (python_version >= \"3.6\") and extra == 'tests'\n\
    000111|flake8-import-order|||pep8test|flake8-import-order ; extra == 'pep8test'\n\
    000111|flask||!=2.2.0,!=2.2.1|server|flask!=2.2.0,!=2.2.1; extra == \"server\"\n\
    000111|flask-cors|||server|flask-cors; extra == \"server\"\n\
    000111|flufl-flake8|||test|flufl.flake8 ; extra == 'test'\n\
    000111|fqdn|||format-nongpl|fqdn; extra == 'format-nongpl'\n\
    000001|futures|||tests|futures ; (python_version == \"2.7\") and extra == 'tests'\n\
    000110|gmpy2||>=2.1.0a4|gmpy|gmpy2 (>=2.1.0a4) ; (platform_python_implementation != \"PyPy\") and extra == 'gmpy'\n\
    000111|google-cloud-secret-manager||>=2.23.1|gcp-secret-manager|google-cloud-secret-manager>=2.23.1; extra == 'gcp-secret-manager'\n\
    000111|grpcio-tools||>=1.71.0|protobuf|grpcio-tools >=1.71.0 ; extra == 'protobuf'\n\
    000111|h2||<5,>=4|h2|h2<5,>=4; extra == 'h2'\n\
    000111|hypothesis||!=3.79.2,>=1.11.4|test|hypothesis (!=3.79.2,>=1.11.4) ; extra == 'test'\n\
    000111|idna||==3.13|docs|idna ==3.13 ; extra == 'docs'\n\
    111111|idna||<4,>=2.5|other|idna<4,>=2.5\n\
    011011|importlib-metadata||>=3.6|other|importlib-metadata >=3.6 ; python_version < \"3.10\"\n\
    011011|importlib-metadata||>=3.6.0|other|importlib-metadata>=3.6.0; python_version < '3.10'\n\
    000011|importlib-resources|||test|importlib-resources ; (python_version < \"3.9\") and extra == 'test'\n\
    011011|importlib-resources|||other|importlib-resources ; python_version < \"3.9\"\n\
    000011|importlib-resources||>=1.3|test|importlib-resources >=1.3 ; (python_version < \"3.9\") and extra == 'test'\n\
    000011|importlib-metadata||>=7.0.2|type|importlib_metadata>=7.0.2; python_version < \"3.10\" and extra == \"type\"\n\
    111111|jaraco-context||>=4.1|other|jaraco.context >=4.1\n\
    000100|jaraco-develop||>=7.21|test|jaraco.develop>=7.21; (python_version >= \"3.9\" and sys_platform != \"cygwin\") and extra == \"test\"\n\
    000111|jaraco-develop||>=7.21|type|jaraco.develop>=7.21; sys_platform != \"cygwin\" and extra == \"type\"\n\
    000111|jaraco-envs||>=2.2|testing|jaraco.envs (>=2.2) ; extra == 'testing'\n\
    000111|jaraco-envs||>=2.2|testing-integration|jaraco.envs (>=2.2) ; extra == 'testing-integration'\n\
    000111|jaraco-envs||>=2.2|test|jaraco.envs>=2.2; extra == \"test\"\n\
    111111|jaraco-functools|||other|jaraco.functools\n\
    000111|jaraco-functools||>=4|core|jaraco.functools>=4; extra == \"core\"\n\
    000111|jaraco-packaging||>=9|docs|jaraco.packaging (>=9) ; extra == 'docs'\n\
    000111|jaraco-packaging||>=9.3|doc|jaraco.packaging >=9.3 ; extra == 'doc'\n\
    000111|jaraco-path||>=3.2.0|testing|jaraco.path (>=3.2.0) ; extra == 'testing'\n\
    000111|jaraco-path||>=3.2.0|testing-integration|jaraco.path (>=3.2.0) ; extra == 'testing-integration'\n\
    000111|jaraco-path||>=3.7.2|test|jaraco.path>=3.7.2; extra == \"test\"\n\
    111111|jedi||>=0.16|other|jedi >=0.16\n\
    111111|jsonschema||<5.0.0,>=4.19.1|other|jsonschema (>=4.19.1,<5.0.0)\n\
    111111|jsonschema-path||<0.6.0,>=0.5.0|other|jsonschema-path (>=0.5.0,<0.6.0)\n\
    111111|jsonschema-specifications||>=2024.10.1|other|jsonschema-specifications (>=2024.10.1)\n\
    000111|junit-xml||~=1.9|full|junit-xml~=1.9; extra == \"full\"\n\
    111111|lazy-object-proxy||<2.0,>=1.7.1|other|lazy-object-proxy (>=1.7.1,<2.0)\n\
    000111|matplotlib||!=3.2.0|all|matplotlib !=3.2.0 ; extra == 'all'\n\
    111111|matplotlib-inline|||other|matplotlib-inline\n\
    000111|maturin||<0.16,>=0.8.3|dev|maturin (<0.16,>=0.8.3) ; extra == 'dev'\n\
    111111|more-itertools||>=8.5.0|other|more-itertools >=8.5.0\n\
    111111|mpmath||<1.4,>=1.1.0|other|mpmath<1.4,>=1.1.0\n\
    000111|mypy||>=1.11.2|all|mypy >= 1.11.2 ; extra == \"all\"\n\
    000110|mypy||>=1.2.0|test|mypy >=1.2.0 ; (platform_python_implementation != \"PyPy\") and extra == 'test'\n\
    000001|mypy||<1.19,>=1.7.0|test|mypy<1.19,>=1.7.0; (platform_python_implementation == 'PyPy') and extra == 'test'\n\
    000111|mypy||==1.14.*|type|mypy==1.14.*; extra == \"type\"\n\
    000111|myst-nb||>=1.1|doc|myst-nb>=1.1; extra == \"doc\"\n\
    000111|myst-parser|||docs|myst-parser; extra == 'docs'\n\
    000111|myst-parser||==0.18.0|docs|myst-parser==0.18.0; extra == 'docs'\n\
    000111|numpy||>=1.21|all|numpy >=1.21 ; extra == 'all'\n\
    111111|nvidia-cuda-crt|||other|nvidia-cuda-crt\n\
    111111|openapi-schema-validator||<0.10.0,>=0.9.0|other|openapi-schema-validator (>=0.9.0,<0.10.0)\n\
    000111|openapi-spec-validator||>=0.5.0|all|openapi-spec-validator>=0.5.0; extra == \"all\"\n\
    111111|parso||<0.9.0,>=0.8.6|other|parso <0.9.0,>=0.8.6\n\
    000011|pathlib2|||test|pathlib2 ; (python_version < \"3.10\") and extra == 'test'\n\
    001001|pathlib2|||other|pathlib2; python_version in \"2.6 2.7 3.2 3.3\"\n\
    000110|paver|||tests|paver ; (python_version >= \"3.6\") and extra == 'tests'\n\
    101101|pexpect||>4.3|other|pexpect >4.3 ; sys_platform != \"win32\"\n\
    000111|pip||>=19.1|testing|pip (>=19.1) ; extra == 'testing'\n\
    000111|pip-run||>=8.8|testing|pip-run (>=8.8) ; extra == 'testing'\n\
    111111|prompt-toolkit||!=3.0.37,<3.1.0,>=3.0.30|other|prompt-toolkit !=3.0.37,<3.1.0,>=3.0.30\n\
    000111|prompt-toolkit||>=2.0.9|dev|prompt-toolkit (>=2.0.9) ; extra == 'dev'\n\
    000111|py-partiql-parser||==0.6.3|all|py-partiql-parser==0.6.3; extra == \"all\"\n\
    111111|pycparser|||other|pycparser; implementation_name != \"PyPy\"\n\
    111111|pydantic-core||==2.46.4|other|pydantic-core==2.46.4\n\
    000111|pydata-sphinx-theme|||docs|pydata-sphinx-theme; extra == 'docs'\n\
    000111|pydata-sphinx-theme||>=0.16|doc|pydata-sphinx-theme>=0.16; extra == \"doc\"\n\
    000111|pygments-github-lexers||==0.0.5|docs|pygments-github-lexers (==0.0.5) ; extra == 'docs'\n\
    110110|pyparsing||!=3.0.0,!=3.0.1,!=3.0.2,!=3.0.3,<4,>=2.4.2|other|pyparsing (!=3.0.0,!=3.0.1,!=3.0.2,!=3.0.3,<4,>=2.4.2) ; python_version > \"3.0\"\n\
    001001|pyparsing||<3,>=2.4.2|other|pyparsing (<3,>=2.4.2) ; python_version < \"3.0\"\n\
    000111|pyproject-hooks||!=1.1|doc|pyproject-hooks!=1.1; extra == \"doc\"\n\
    000101|pyre-check||==0.9.10|dev|pyre-check (==0.9.10) ; (platform_system != \"Windows\") and extra == 'dev'\n\
    000111|pysocks||!=1.5.7,<2.0,>=1.5.6|socks|pysocks!=1.5.7,<2.0,>=1.5.6; extra == 'socks'\n\
    000111|pytest||!=8.0.*|testing|pytest !=8.0.* ; extra == 'testing'\n\
    000111|pytest||!=8.1.*,>=6|test|pytest !=8.1.*,>=6 ; extra == 'test'\n\
    000111|pytest||!=8.1.1,>=6|testing|pytest !=8.1.1,>=6 ; extra == 'testing'\n\
    000111|pytest||>=6|testing|pytest (>=6) ; extra == 'testing'\n\
    000111|pytest|||testing-integration|pytest ; extra == 'testing-integration'\n\
    000111|pytest||<7|all|pytest <7 ; extra == 'all'\n\
    000111|pytest||<7.1|all|pytest <7.1 ; extra == 'all'\n\
    000111|pytest||<9.0.0|dev|pytest <9.0.0 ; extra == 'dev'\n\
    000111|pytest||>=3.0.1|test|pytest >=3.0.1 ; extra == 'test'\n\
    000111|pytest||!=8.1.*,>=6|test|pytest!=8.1.*,>=6; extra == \"test\"\n\
    000010|pytest-black||>=0.3.7|testing|pytest-black (>=0.3.7) ; (platform_python_implementation != \"PyPy\" and python_version < \"3.10\") and extra == 'testing'\n\
    000110|pytest-black||>=0.3.7|testing|pytest-black (>=0.3.7) ; (platform_python_implementation != \"PyPy\") and extra == 'testing'\n\
    000111|pytest-checkdocs||>=2.4|check|pytest-checkdocs >=2.4 ; extra == 'check'\n\
    000110|pytest-cov|||testing|pytest-cov ; (platform_python_implementation != \"PyPy\") and extra == 'testing'\n\
    000111|pytest-cov||<5,>=2.10|dev|pytest-cov<5,>=2.10; extra == \"dev\"\n\
    000111|pytest-cov||>=4.1|test|pytest-cov>=4.1; extra == 'test'\n\
    000111|pytest-enabler|||testing-integration|pytest-enabler ; extra == 'testing-integration'\n\
    000111|pytest-mpl|||test-extras|pytest-mpl; extra == \"test-extras\"\n\
    000010|pytest-mypy|||testing|pytest-mypy ; (platform_python_implementation != \"PyPy\" and python_version < \"3.10\") and extra == 'testing'\n\
    000111|pytest-perf|||test|pytest-perf; sys_platform != \"cygwin\" and extra == \"test\"\n\
    000111|pytest-ruff||>=0.2.1|check|pytest-ruff >=0.2.1 ; (sys_platform != \"cygwin\") and extra == 'check'\n\
    000111|pytest-ruff||>=0.2.1|check|pytest-ruff>=0.2.1; sys_platform != \"cygwin\" and extra == \"check\"\n\
    000111|pytest-xdist||>=3|test|pytest-xdist>=3; extra == \"test\"\n\
    000111|pytest||<8.2,>=7.0|test|pytest<8.2,>=7.0; extra == 'test'\n\
    000111|pytest||<9.0|test|pytest<9.0; extra == \"test\"\n\
    111111|python-dateutil||<3.0.0,>=2.1|other|python-dateutil (<3.0.0,>=2.1)\n\
    000111|python-dotenv|||dotenv|python-dotenv ; extra == \"dotenv\"\n\
    111111|referencing||<0.38.0|other|referencing (<0.38.0)\n\
    000111|regress||>=2025.10.1|ecma-regex|regress (>=2025.10.1) ; extra == \"ecma-regex\"\n\
    000111|requests||<3.0.0,>=2.31.0|requests|requests (>=2.31.0,<3.0.0) ; extra == \"requests\"\n\
    111111|responses||!=0.25.5,>=0.15.0|other|responses!=0.25.5,>=0.15.0\n\
    000111|rfc3339-validator|||format-nongpl|rfc3339-validator; extra == 'format-nongpl'\n\
    000111|rfc3986-validator||>0.1.0|format-nongpl|rfc3986-validator>0.1.0; extra == 'format-nongpl'\n\
    000111|rfc3987-syntax||>=1.1.0|format-nongpl|rfc3987-syntax>=1.1.0; extra == 'format-nongpl'\n\
    000100|rich|||tests|rich; python_version >= \"3.11\" and extra == \"tests\"\n\
    111111|rsa||<4.8,>=3.1.2|other|rsa (<4.8,>=3.1.2)\n\
    000111|ruamel-yaml||==0.17.21|dev|ruamel.yaml==0.17.21; extra == \"dev\"\n\
    000111|ruff||>=0.8.0|check|ruff>=0.8.0; sys_platform != \"cygwin\" and extra == \"check\"\n\
    000111|sarif-om||~=1.0.4|full|sarif-om~=1.0.4; extra == \"full\"\n\
    000111|setuptools||>=65|test|setuptools >= 65 ; extra == \"test\"\n\
    000111|sphinx||!=5.2.0,!=5.2.0.post0,!=7.2.5|docs|sphinx !=5.2.0,!=5.2.0.post0,!=7.2.5 ; extra == 'docs'\n\
    000111|sphinx||!=1.8.0,!=3.1.0,!=3.1.1,>=1.6.5|docs|sphinx (!=1.8.0,!=3.1.0,!=3.1.1,>=1.6.5) ; extra == 'docs'\n\
    000111|sphinx-autodoc-typehints||>=1.2.0|doc|sphinx-autodoc-typehints >=1.2.0 ; extra == 'doc'\n\
    000111|sphinx-autodoc-typehints||>=1.25.2|docs|sphinx-autodoc-typehints>=1.25.2; extra == 'docs'\n\
    000111|sphinx-hoverxref||<2|docs|sphinx-hoverxref (<2) ; extra == 'docs'\n\
    000111|sphinx-notfound-page||<2,>=1|doc|sphinx-notfound-page<2,>=1; extra == \"doc\"\n\
    000111|sphinx-rtd-theme||>=0.4.3|dev|sphinx-rtd-theme (>=0.4.3) ; extra == 'dev'\n\
    000111|sphinx-rtd-theme||==3.1.0|docs|sphinx-rtd-theme ==3.1.0 ; extra == 'docs'\n\
    000111|sphinx-rtd-theme||>=1.1.1|docs|sphinx-rtd-theme>=1.1.1 ; extra == 'docs'\n\
    000111|sphinxcontrib-jquery||==4.1|docs|sphinxcontrib-jquery ==4.1 ; extra == 'docs'\n\
    000111|sphinxcontrib-spelling||>=4.0.1|docstest|sphinxcontrib-spelling>=4.0.1 ; extra == 'docstest'\n\
    000011|tomli|||tests|tomli; python_version < \"3.11\" and extra == \"tests\"\n\
    111111|traitlets||>=5|other|traitlets >=5\n\
    000111|types-boto3|secretsmanager||aws-secrets-manager|types-boto3[secretsmanager]; extra == 'aws-secrets-manager'\n\
    000111|types-setuptools||==67.2.0.1|qa|types-setuptools ==67.2.0.1 ; extra == 'qa'\n\
    001001|typing|||other|typing ; python_version < \"3.5\"\n\
    111111|typing-extensions||>=3.7.4.2|other|typing-extensions (>=3.7.4.2)\n\
    001001|typing-extensions||>=3.6.4|other|typing-extensions >=3.6.4 ; python_version < \"3.8\"\n\
    011011|typing-extensions||<5,>=4.7|other|typing-extensions<5,>=4.7; python_version < \"3.10\"\n\
    011011|typing-extensions||>=4.13.2|other|typing-extensions>=4.13.2 ; python_full_version < '3.11'\n\
    000000|tzdata|||timezone|tzdata; (python_version >= '3.9' and platform_system == 'Windows') and extra == 'timezone'\n\
    111111|urllib3||!=2.2.0,<3,>=1.25.4|other|urllib3 (!=2.2.0,<3,>=1.25.4)\n\
    111111|werkzeug||!=2.2.0,!=2.2.1,>=0.5|other|werkzeug!=2.2.0,!=2.2.1,>=0.5\n\
    000010|wincertstore||==0.2|ssl|wincertstore (==0.2) ; (sys_platform == \"win32\") and extra == 'ssl'\n\
    000010|wincertstore||==0.2|ssl|wincertstore (==0.2); (sys_platform=='win32') and extra == 'ssl'";

fn sign(op: Op) -> &'static str {
    match op {
        Op::Equal => "==",
        Op::Unequal => "!=",
        Op::AtLeast => ">=",
        Op::AtMost => "<=",
        Op::More => ">",
        Op::Less => "<",
        Op::Compatible => "~=",
        Op::Distinct => "!==",
    }
}

// A clause as text.
fn clause_text(alloc: Global, clause: &Clause) -> Result<String, AllocError> {
    let version = clause.version.text(alloc)?;
    let star = if clause.prefix { ".*" } else { "" };
    format!(in alloc; "{}{version}{star}", sign(clause.op))
}

// The clauses as texts, in byte order.
fn clause_texts(alloc: Global, specifiers: &Specifiers) -> Result<Vec<String>, AllocError> {
    let mut texts = Vec::new(alloc);
    for clause in &specifiers.clauses {
        texts.push(clause_text(alloc, clause)?)?;
    }
    texts.sort()?;
    Ok(texts)
}

// Puts texts with a comma between each two.
fn put_listed(told: &mut String, texts: &[String]) {
    for text in texts {
        if !told.ends_with("|") {
            put(told, ",");
        }
        put(told, text.as_str());
    }
}

// Puts the names of extras, with a space between each two.
fn put_extras(told: &mut String, extras: &[Name]) {
    for extra in extras {
        if !told.ends_with("|") {
            put(told, " ");
        }
        put(told, extra.text());
    }
}

// Whether the marker holds at a world with an extra.
fn holds(requirement: &Requirement, world: &World, extra: &str) -> bool {
    match &requirement.marker {
        Some(marker) => marker.holds(world, extra),
        None => true,
    }
}

// Puts whether the marker, which has these opaque comparisons, holds on each machine with an extra.
fn put_bits(
    alloc: Global,
    told: &mut String,
    requirement: &Requirement,
    machines: &[Machine],
    atoms: &Vec<Atom>,
    extra: &str,
) {
    for machine in machines {
        if let Ok(world) = world_of(alloc, machine, atoms) {
            put(
                told,
                if holds(requirement, &world, extra) {
                    "1"
                } else {
                    "0"
                },
            );
        }
    }
}

// Puts whether the marker holds on each machine without an extra, and with it.
fn put_truths(
    alloc: Global,
    told: &mut String,
    requirement: &Requirement,
    machines: &[Machine],
    extra: &str,
) {
    if let Ok(atoms) = requirement.atoms(alloc) {
        put_bits(alloc, told, requirement, machines, &atoms, "");
        put_bits(alloc, told, requirement, machines, &atoms, extra);
    }
}

// Puts the name, the extras and the clauses of a requirement.
fn put_parts(alloc: Global, told: &mut String, requirement: &Requirement) {
    put(told, "|");
    put(told, requirement.name.text());
    put(told, "|");
    put_extras(told, requirement.extras.as_slice());
    put(told, "|");
    if let Ok(texts) = clause_texts(alloc, &requirement.specifiers) {
        put_listed(told, texts.as_slice());
    }
}

// Whether a requirement is what the first columns of a line say.
fn is_told(
    alloc: Global,
    machines: &[Machine],
    requirement: &Requirement,
    extra: &str,
    want: &str,
) -> bool {
    let mut told = String::new(alloc);
    put_truths(alloc, &mut told, requirement, machines, extra);
    put_parts(alloc, &mut told, requirement);
    told.as_str() == want
}

// A copy of the requirement of a text.
fn copied(alloc: Global, text: &str) -> Option<Requirement> {
    let requirement = Requirement::read(alloc, text).ok()?;
    let copy = requirement.copy(alloc).ok();
    drop(requirement);
    copy
}

// Whether a copy of a line's requirement is as the line says.
fn is_line(alloc: Global, machines: &[Machine], line: &str) -> bool {
    let (front, text) = line.rsplit_once('|').unwrap_or((line, ""));
    let (want, extra) = front.rsplit_once('|').unwrap_or((front, ""));
    match copied(alloc, text) {
        Some(copy) => {
            let told = is_told(alloc, machines, &copy, extra, want);
            drop(copy);
            told
        }
        None => false,
    }
}

// The machines of the files.
fn machines(alloc: Global) -> Result<Vec<Machine>, EnvFault> {
    let mut machines = Vec::new(alloc);
    for file in MACHINES.lines() {
        machines.push(Machine::read(alloc, file.as_bytes())?)?;
    }
    Ok(machines)
}

// How many lines there are before the first whose requirement is read otherwise.
fn right_lines(alloc: Global, machines: &[Machine]) -> u32 {
    let mut count = 0_u32;
    for line in PUBLISHED.lines() {
        if !is_line(alloc, machines, line) {
            return count;
        }
        count = count.saturating_add(1);
    }
    count
}

fn right_count(alloc: Global) -> u32 {
    match machines(alloc) {
        Ok(machines) => right_lines(alloc, machines.as_slice()),
        Err(_) => 0,
    }
}

#[test]
fn requirements_are_read_as_in_packaging(rt: HostRuntime) {
    let count = right_count(rt.alloc());
    assert!(rt; count == 200, "line {count}");
}
