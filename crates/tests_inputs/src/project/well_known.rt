//! Files of the shape that well-known projects have.
//!
//! Before each file stands what it is read as, and `====` between two.
use crate::project::told::is_read;
use std::alloc::Global;
use tests_rows::cells;

const FILES: &str =
    r#"flask 3.1.0 werkzeug:1 jinja2:1 itsdangerous:1 click:1 blinker:1 importlib-metadata:1; asgiref:1! python-dotenv! | async dotenv | | | | 1 0 1 highest fewest
[project]
name = "Flask"
version = "3.1.0"
description = "A simple framework for building complex web applications."
readme = "README.md"
license = {text = "BSD-3-Clause"}
requires-python = ">=3.9"
dependencies = [
    "Werkzeug>=3.1",
    "Jinja2>=3.1.2",
    "itsdangerous>=2.2",
    "click>=8.1.3",
    "blinker>=1.9",
    "importlib-metadata>=3.6; python_version < '3.10'",
]

[project.optional-dependencies]
async = ["asgiref>=3.2"]
dotenv = ["python-dotenv"]

[project.scripts]
flask = "flask.cli:main"

[build-system]
requires = ["flit_core<4"]
build-backend = "flit_core.buildapi"

[tool.pytest.ini_options]
testpaths = ["tests"]
====
requests 0 charset-normalizer:2 idna:2 urllib3:2 certifi:1 pysocks:2! chardet:2! | security socks use-chardet-on-py3 | | | | 1 0 1 highest fewest
[build-system]
requires = ["setuptools>=61.0"]
build-backend = "setuptools.build_meta"

[project]
name = "requests"
description = "Python HTTP for Humans."
requires-python = ">=3.9"
dynamic = ["version"]
dependencies = [
    "charset_normalizer>=2,<4",
    "idna>=2.5,<4",
    "urllib3>=1.26,<3",
    "certifi>=2023.5.7",
]

[project.optional-dependencies]
security = []
socks = ["PySocks>=1.5.6, !=1.5.7"]
use_chardet_on_py3 = ["chardet>=3.0.2,<8"]

[tool.isort]
profile = "black"
====
black 0 click:1 mypy-extensions:1 packaging:1 pathspec:1 platformdirs:1 tomli:1; typing-extensions:1; colorama:1! aiohttp:1! aiohttp:2! ipython:1! tokenize-rt:1! uvloop:1! | colorama d jupyter uvloop | | | | 1 0 1 highest fewest
[tool.black]
line-length = 88
target-version = ['py39', 'py310']

[project]
name = "black"
requires-python = ">=3.9"
dynamic = ["readme", "version"]
dependencies = [
  "click>=8.0.0",
  "mypy_extensions>=0.4.3",
  "packaging>=22.0",
  "pathspec>=0.9.0",
  "platformdirs>=2",
  "tomli>=1.1.0; python_version < '3.11'",
  "typing_extensions>=4.0.1; python_version < '3.11'",
]

[project.optional-dependencies]
colorama = ["colorama>=0.4.3"]
uvloop = ["uvloop>=0.15.2"]
d = [
  "aiohttp>=3.7.4; sys_platform != 'win32' or implementation_name != 'pypy'",
  "aiohttp>=3.7.4, !=3.9.0; sys_platform == 'win32' and implementation_name == 'pypy'",
]
jupyter = ["ipython>=7.8.0", "tokenize-rt>=3.2.0"]
====
pytest 0 colorama:1; exceptiongroup:1; iniconfig packaging pluggy:2 tomli:1; argcomplete! attrs:1! hypothesis:1! | dev | | | | 1 0 1 highest fewest
[project]
name = "pytest"
description = "pytest: simple powerful testing with Python"
requires-python = ">=3.9"
dynamic = [ "version" ]
dependencies = [
  "colorama>=0.4; sys_platform=='win32'",
  "exceptiongroup>=1.0.0rc8; python_version<'3.11'",
  "iniconfig",
  "packaging",
  "pluggy>=1.5,<2",
  "tomli>=1; python_version<'3.11'",
]
optional-dependencies.dev = [
  "argcomplete",
  "attrs>=19.2",
  "hypothesis>=3.56",
]
scripts."py.test" = "pytest:console_main"
====
numpy 2.3.0.dev0 | | | | | 1 0 1 highest fewest
[project]
name = "numpy"
version = "2.3.0.dev0"
requires-python = ">=3.11"
license = {file = "LICENSE.txt"}

[project.scripts]
f2py = 'numpy.f2py.f2py2e:main'

[[tool.towncrier.type]]
directory = "highlight"
name = ""

[tool.meson-python.args]
install = ['--tags=runtime,python-runtime,tests,devel']
====
attrs 0 | | cov= @tests coverage+toml:1 dev= @tests tests= hypothesis pytest:1 @tests-mypy tests-mypy= pytest-mypy-plugins; mypy:1; | | | 1 0 1 highest fewest
[project]
name = "attrs"
dynamic = ["version", "readme"]
requires-python = ">=3.8"
dependencies = []

[dependency-groups]
tests-mypy = [
  'pytest-mypy-plugins; platform_python_implementation == "CPython" and python_version >= "3.10"',
  'mypy>=1.11.1; platform_python_implementation == "CPython"',
]
tests = [
  "hypothesis",
  "pytest>=4.3.0",
  { include-group = "tests-mypy" },
]
cov = [{ include-group = "tests" }, "coverage[toml]>=5.3"]
dev = [{ include-group = "tests" }]
====
django 0 asgiref:1 sqlparse:1 tzdata; argon2-cffi:1! bcrypt! | argon2 bcrypt | | | | 1 0 1 highest fewest
[build-system]
requires = ["setuptools>=75.8.1"]
build-backend = "setuptools.build_meta"

[project]
name = "Django"
dynamic = ["version"]
requires-python = ">= 3.12"
dependencies = [
    "asgiref>=3.8.1",
    "sqlparse>=0.3.1",
    "tzdata; sys_platform == 'win32'",
]
authors = [
  {name = "Django Software Foundation", email = "foundation@djangoproject.com"},
]
license = "BSD-3-Clause"

[project.optional-dependencies]
argon2 = ["argon2-cffi>=19.1.0"]
bcrypt = ["bcrypt"]

[project.scripts]
django-admin = "django.core.management:execute_from_command_line"

[tool.black]
target-version = ["py312"]
force-exclude = "tests/test_runner_apps/tagged/tests_syntax_error.py"
====
fastapi 0 starlette:2 pydantic:7 typing-extensions:1 itsdangerous:1! pyyaml:1! ujson:7! fastapi-cli+standard:1! httpx:1! jinja2:1! uvicorn+standard:1! | all standard | | | | 1 0 1 highest fewest
[build-system]
requires = ["pdm-backend"]
build-backend = "pdm.backend"

[project]
name = "fastapi"
dynamic = ["version"]
requires-python = ">=3.8"
dependencies = [
    "starlette>=0.40.0,<0.47.0",
    "pydantic>=1.7.4,!=1.8,!=1.8.1,!=2.0.0,!=2.0.1,!=2.1.0,<3.0.0",
    "typing-extensions>=4.8.0",
]

[project.optional-dependencies]
standard = [
    "fastapi-cli[standard] >=0.0.5",
    # For the test client
    "httpx >=0.23.0",
    "jinja2 >=3.1.5",
    "uvicorn[standard] >=0.12.0",
]
all = [
    "itsdangerous >=1.1.0",
    "pyyaml >=5.3.1",
    "ujson >=4.0.1,!=4.0.2,!=4.1.0,!=4.2.0,!=4.3.0,!=5.0.0,!=5.1.0",
]

[project.urls]
Homepage = "https://github.com/fastapi/fastapi"

[project.scripts]
fastapi = "fastapi.cli:main"

[tool.pdm]
version = { source = "file", path = "fastapi/__init__.py" }
distribution = true

[tool.pdm.build]
source-includes = ["tests/", "docs_src/"]
====
httpx 0 certifi httpcore:1 anyio idna brotli! brotlicffi! click:1! pygments:1! rich:2! h2:2! socksio:1! zstandard:1! | brotli cli http2 socks zstd | | | | 1 0 1 highest fewest
[project]
name = "httpx"
description = "The next generation HTTP client."
license = "BSD-3-Clause"
requires-python = ">=3.8"
authors = [
    { name = "Tom Christie", email = "tom@tomchristie.com" },
]
dependencies = [
    "certifi",
    "httpcore==1.*",
    "anyio",
    "idna",
]
dynamic = ["readme", "version"]

[project.optional-dependencies]
brotli = [
    "brotli; platform_python_implementation == 'CPython'",
    "brotlicffi; platform_python_implementation != 'CPython'",
]
cli = ["click==8.*", "pygments==2.*", "rich>=10,<14"]
http2 = ["h2>=3,<5"]
socks = ["socksio==1.*"]
zstd = ["zstandard>=0.18.0"]

[tool.hatch.version]
path = "httpx/__version__.py"

[tool.coverage.run]
omit = ["venv/*"]
include = ["httpx/*", "tests/*"]
====
pandas 0 numpy:1; numpy:1; numpy:1; python-dateutil:1 tzdata:1 tables:1! pyarrow:1! hypothesis:1! pytest:1! pytest-xdist:1! | hdf5 pyarrow test | | | | 1 0 1 highest fewest
[project]
name = 'pandas'
dynamic = ['version']
requires-python = '>=3.10'
dependencies = [
  "numpy>=1.22.4; python_version<'3.11'",
  "numpy>=1.23.2; python_version=='3.11'",
  "numpy>=1.26.0; python_version>='3.12'",
  "python-dateutil>=2.8.2",
  "tzdata>=2022.7"
]

[project.entry-points."pandas_plotting_backends"]
matplotlib = "pandas:plotting._matplotlib"

[project.optional-dependencies]
test = ['hypothesis>=6.84.0', 'pytest>=7.3.2', 'pytest-xdist>=3.4.0']
pyarrow = ['pyarrow>=10.0.1']
hdf5 = ['tables>=3.8.0']

[[tool.cibuildwheel.overrides]]
select = "*-manylinux_aarch64*"
test-command = "pytest -n logical"
====
shape project
[tool.poetry]
name = "legacy"
version = "1.0.0"

[tool.poetry.dependencies]
python = "^3.9"
requests = "^2.28"
====
unsupported project.dynamic
[project]
name = "legacy-setuptools"
dynamic = ["version", "dependencies"]

[tool.setuptools.dynamic]
dependencies = {file = ["requirements.txt"]}
====
unsupported tool.uv.sources
[project]
name = "albatross"
version = "0.1.0"
requires-python = ">=3.12"
dependencies = ["bird-feeder", "tqdm>=4,<5"]

[tool.uv.sources]
bird-feeder = { workspace = true }

[tool.uv.workspace]
members = ["packages/*"]
====
train 0.1.0 torch:1 numpy:1 | | | grpcio:1 | werkzeug:1 | 1 2 2 highest requires-python
[project]
name = "train"
version = "0.1.0"
requires-python = ">=3.10"
dependencies = ["torch>=2.3", "numpy>=1.26"]

[tool.uv]
environments = ["sys_platform == 'darwin'", "sys_platform == 'linux'"]
constraint-dependencies = ["grpcio<1.65"]
override-dependencies = ["werkzeug==2.3.0"]
resolution = "highest"
prerelease = "if-necessary-or-explicit"
fork-strategy = "requires-python"
====
unsupported project.dependencies[1]
[project]
name = "app"
version = "1"
dependencies = ["lib", "fork @ git+https://example.org/fork.git"]
"#;

fn is_row(alloc: Global, text: &str) -> bool {
    let (want, file) = cells(text, '\n');
    is_read(alloc, file.as_bytes(), want)
}

#[test]
fn files_of_well_known_projects(rt: HostRuntime) {
    for text in FILES.split("====\n") {
        assert!(rt; is_row(rt.alloc(), text), "{text}");
    }
}
