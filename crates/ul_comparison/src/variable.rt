//! The variables of markers, and how they are compared.
ghost use Rattle.std.specs.Prelude.{◌≡◌, Bool};
ghost use Rattle.ul_comparison.specs.Atoms;
ghost use Rattle.ul_comparison.specs.Printed.{variable_name};

/// A variable of a marker beside `extra` (PEP 508, "Environment Markers"), in the order of variables.
#[derive(Clone, Copy, PartialEq, Eq, Debug)]
pub enum Variable {
    /// `os_name`
    OsName,
    /// `sys_platform`
    SysPlatform,
    /// `platform_machine`
    PlatformMachine,
    /// `platform_python_implementation`
    PlatformPythonImplementation,
    /// `platform_release`
    PlatformRelease,
    /// `platform_system`
    PlatformSystem,
    /// `platform_version`
    PlatformVersion,
    /// `python_version`
    PythonVersion,
    /// `python_full_version`
    PythonFullVersion,
    /// `implementation_name`
    ImplementationName,
    /// `implementation_version`
    ImplementationVersion,
    /// `extras`, the extras that are chosen (PEP 751): a literal is `in` it, and nothing else is asked of it
    Extras,
}

/// How an opaque comparison compares a variable with a literal, in the order of kinds.
#[derive(Clone, Copy, PartialEq, Eq, Debug)]
pub enum AtomKind {
    /// The literal is a substring of the variable's text.
    Contains,
    /// The variable's text is a substring of the literal.
    Within,
    /// The variable comes before the literal.
    Below,
    /// The variable comes before the literal or equals it.
    AtMost,
    /// The variable equals the literal.
    Same,
}

impl Variable {
    /// The name of the variable, in its newer spelling.
    pub fn name(self) -> &'static str
        ensures { result.now ≡ variable_name self }
    {
        match self {
            Variable::OsName => "os_name",
            Variable::SysPlatform => "sys_platform",
            Variable::PlatformMachine => "platform_machine",
            Variable::PlatformPythonImplementation => "platform_python_implementation",
            Variable::PlatformRelease => "platform_release",
            Variable::PlatformSystem => "platform_system",
            Variable::PlatformVersion => "platform_version",
            Variable::PythonVersion => "python_version",
            Variable::PythonFullVersion => "python_full_version",
            Variable::ImplementationName => "implementation_name",
            Variable::ImplementationVersion => "implementation_version",
            Variable::Extras => "extras",
        }
    }

    /// The place of the variable in the order of variables, from 0.
    pub fn number(self) -> u8
        ensures { result ≡ Atoms.variable_number self }
    {
        match self {
            Variable::OsName => 0,
            Variable::SysPlatform => 1,
            Variable::PlatformMachine => 2,
            Variable::PlatformPythonImplementation => 3,
            Variable::PlatformRelease => 4,
            Variable::PlatformSystem => 5,
            Variable::PlatformVersion => 6,
            Variable::PythonVersion => 7,
            Variable::PythonFullVersion => 8,
            Variable::ImplementationName => 9,
            Variable::ImplementationVersion => 10,
            Variable::Extras => 11,
        }
    }

    /// The place of a text variable among the eight texts of a world, and 8 for a variable that isn't a
    /// text variable.
    pub fn text_number(self) -> usize
        ensures { result ≡ Atoms.text_number self }
    {
        match self {
            Variable::OsName => 0,
            Variable::SysPlatform => 1,
            Variable::PlatformMachine => 2,
            Variable::PlatformPythonImplementation => 3,
            Variable::PlatformRelease => 4,
            Variable::PlatformSystem => 5,
            Variable::PlatformVersion => 6,
            Variable::ImplementationName => 7,
            Variable::PythonVersion
            | Variable::PythonFullVersion
            | Variable::ImplementationVersion
            | Variable::Extras => 8,
        }
    }

    /// Whether this is `extras`.
    pub fn is_extras(self) -> bool
        ensures { result ≡ Atoms.is_extras self }
    {
        matches!(self, Variable::Extras)
    }

    /// Whether this is one of the eight text variables.
    pub fn is_text(self) -> bool
        ensures { result ≡ Atoms.is_text self }
    {
        !matches!(
            self,
            Variable::PythonVersion
                | Variable::PythonFullVersion
                | Variable::ImplementationVersion
                | Variable::Extras
        )
    }
}

impl AtomKind {
    /// The place of the kind in the order of kinds, from 0.
    pub fn number(self) -> u8
        ensures { result ≡ Atoms.kind_number self }
    {
        match self {
            AtomKind::Contains => 0,
            AtomKind::Within => 1,
            AtomKind::Below => 2,
            AtomKind::AtMost => 3,
            AtomKind::Same => 4,
        }
    }
}
