//! The kinds of offence, each with its number and its text.
//!
//! Both tables are fixed for users: scripts sort refusals by number, and compare the text.

ghost use Rattle.std.specs.Prelude.{◌≡◌};
ghost use Rattle.src_text.specs.Kind.{number_of, text_of};

/// What is wrong with a source. The first letter says where: C, Verilog or the binding of the two.
#[derive(Clone, Copy, Debug, PartialEq, Eq)]
pub enum Kind {
    // Of either text, before its names are looked at.
    /// No tree of the grammar derives the text.
    Syntax,
    /// The text's tree is higher than 256 nodes.
    TooDeep,
    /// The file is longer than 1,048,576 bytes, or a stored log longer than 268,435,456.
    TooLong,
    /// The weight of the unwound pair is above 2^24.
    TooHeavy,
    /// The text isn't of the one written form that is read so far.
    Unsupported,
    /// A run of the pair draws a free value.
    FreeValues,
    // Of the C text.
    /// A name is declared before in its scope (C99 6.7p3), a member in its struct, a tag, or a second body of a function.
    CRedeclared,
    /// The first name of a path or a call isn't visible, or names the variable in whose own initializer it stands.
    CUnknownName,
    /// A struct tag that no struct before it declares.
    CUnknownTag,
    /// A path or a void call is used as a value and isn't an integer object.
    CNotInteger,
    /// A visible name that is called is no function (C99 6.5.2.2p1).
    CNotFunction,
    /// A call has more or fewer arguments than its function has parameters (C99 6.5.2.2p2).
    CArgCount,
    /// The target of a store is `const`, `bound` or no integer object (C99 6.5.16p2).
    CNotAssignable,
    /// A `return` with a value in a void function, or without one in another (C99 6.8.6.4p1).
    CReturn,
    /// A `break` in no loop or switch, or a `continue` in no loop (C99 6.8.6).
    CJump,
    /// An initializer at file scope, an array length or a case label that isn't constant (C99 6.6).
    CConstant,
    /// An array length that isn't from 1 to 4,096 elements.
    CLength,
    /// An array has more initial values than elements (C99 6.7.8p2).
    CInitializers,
    /// A case value or a `default` stands twice in a switch (C99 6.8.4.2p3).
    CCase,
    /// Two declarations of a function differ in types (C99 6.7p4), or a parameter of a definition has no name.
    CFunctionType,
    /// A call of a function that has no body, isn't known and isn't of the `nondet_` form.
    CNoBody,
    /// An `extern` other than `bound` of type `unsigned int` and one mirror of at most 65,536 members.
    CExtern,
    /// An integer constant that no type of its list holds (C99 6.4.4.1p6).
    CLiteral,
    /// `main` has parameters, or a result that is neither `int` nor void.
    CMain,
    /// The file has no `main` with a body.
    CNoMain,
    // Of the modules, their parameters and their expressions.
    /// Two modules have one name.
    VModuleTwice,
    /// The named module isn't there, or there isn't exactly one that no other module instantiates.
    VTop,
    /// A name is declared before in its module, or a case has a second `default`.
    VRedeclared,
    /// A port's declarations don't agree.
    VPort,
    /// A name isn't declared before in its module, or names the parameter in whose own value it stands.
    VUnknownName,
    /// An instance of a module that isn't in the file.
    VUnknownModule,
    /// An instance of the module itself or of one above it.
    VRecursive,
    /// A connection to a port that the module lacks, or that is connected before.
    VConnection,
    /// An instance has an input without an expression.
    VOpenInput,
    /// An override of a parameter that the module lacks, or that is overridden before.
    VParameter,
    /// An expression that must be constant names a signal or divides by 0.
    VConstant,
    /// A range, a width or a count is outside its limits.
    VRange,
    /// A literal with a size, a digit or a value that it can't have (IEEE 1364-2005, 3.5.1).
    VLiteral,
    /// A memory's name without exactly one index.
    VMemory,
    /// The target of an `assign` or of an output connection is no net.
    VNotNet,
    /// The target of a procedural assignment is no `reg`.
    VNotRegister,
    /// An integer is used other than as the variable of the loops over it.
    VLoop,
    /// A `for` loop has more than 4,096 turns.
    VLoopLong,
    /// A statement in `initial` other than a block, a loop or a constant store to a whole word.
    VInitial,
    /// The flat module has more than 2,097,152 nodes, or an instance more than 64 instances above it.
    VTooLarge,
    /// An expression or a target is wider than 128 bits.
    VWide,
    /// An unsized literal is an element of a concatenation (IEEE 1364-2005, 5.1.14).
    VUnsized,
    // Of clocks, drivers and processes.
    /// A `posedge` name doesn't lead through plain connections to a top input of 1 bit.
    VClock,
    /// A `posedge` name leads to another top input than the first one.
    VTwoClocks,
    /// The clock is read as a value.
    VClockRead,
    /// Two drivers write a bit of one wire, or two processes one `reg`.
    VTwoDrivers,
    /// A wire has a bit that no driver writes.
    VNoDriver,
    /// A combinational process assigns by `<=`, or a process assigns a `reg` in both styles.
    VMixed,
    /// A process reads a signal that its sensitivity list lacks.
    VIncomplete,
    /// A combinational process leaves a bit of a `reg` unassigned on some path.
    VLatch,
    /// A clocked process reads a bit that another one assigns at once, by `=`.
    VRace,
    /// A driver leads back to itself.
    VCycle,
    // Of the C mirror against the top module.
    /// The mirror isn't named as the top module is.
    BNotTop,
    /// A member of the mirror names no signal or instance.
    BNoSignal,
    /// A member of the mirror has another shape than its signal or instance.
    BShape,
    /// A member of the mirror has fewer bits than its signal.
    BNarrow,
    /// C assigns a member that isn't a top input other than the clock.
    BNotInput,
    // Of a stimulus, and of a stored log.
    /// A line of the stimulus isn't of the form.
    StimForm,
    /// The stimulus has more than 10,000 lines.
    StimLong,
    /// A name in the stimulus is no input other than the clock, or stands twice in its line.
    StimName,
    /// A value of the stimulus has more bits than its input.
    StimValue,
    /// The text of a stored log isn't of the form.
    LogForm,
}

impl Kind {
    /// The kind's number, from 1 to 110.
    pub fn number(self) -> u16
        ensures { result ≡ number_of self }
    {
        match self {
            Kind::Syntax => 1,
            Kind::TooDeep => 2,
            Kind::TooLong => 3,
            Kind::TooHeavy => 4,
            Kind::Unsupported => 5,
            Kind::FreeValues => 6,
            Kind::CRedeclared => 10,
            Kind::CUnknownName => 11,
            Kind::CUnknownTag => 12,
            Kind::CNotInteger => 13,
            Kind::CNotFunction => 14,
            Kind::CArgCount => 15,
            Kind::CNotAssignable => 16,
            Kind::CReturn => 17,
            Kind::CJump => 18,
            Kind::CConstant => 19,
            Kind::CLength => 20,
            Kind::CInitializers => 21,
            Kind::CCase => 22,
            Kind::CFunctionType => 23,
            Kind::CNoBody => 24,
            Kind::CExtern => 25,
            Kind::CLiteral => 26,
            Kind::CMain => 27,
            Kind::CNoMain => 28,
            Kind::VModuleTwice => 40,
            Kind::VTop => 41,
            Kind::VRedeclared => 42,
            Kind::VPort => 43,
            Kind::VUnknownName => 44,
            Kind::VUnknownModule => 45,
            Kind::VRecursive => 46,
            Kind::VConnection => 47,
            Kind::VOpenInput => 48,
            Kind::VParameter => 49,
            Kind::VConstant => 50,
            Kind::VRange => 51,
            Kind::VLiteral => 52,
            Kind::VMemory => 53,
            Kind::VNotNet => 54,
            Kind::VNotRegister => 55,
            Kind::VLoop => 56,
            Kind::VLoopLong => 57,
            Kind::VInitial => 58,
            Kind::VTooLarge => 59,
            Kind::VWide => 60,
            Kind::VUnsized => 61,
            Kind::VClock => 70,
            Kind::VTwoClocks => 71,
            Kind::VClockRead => 72,
            Kind::VTwoDrivers => 73,
            Kind::VNoDriver => 74,
            Kind::VMixed => 75,
            Kind::VIncomplete => 76,
            Kind::VLatch => 77,
            Kind::VRace => 78,
            Kind::VCycle => 79,
            Kind::BNotTop => 90,
            Kind::BNoSignal => 91,
            Kind::BShape => 92,
            Kind::BNarrow => 93,
            Kind::BNotInput => 94,
            Kind::StimForm => 100,
            Kind::StimLong => 101,
            Kind::StimName => 102,
            Kind::StimValue => 103,
            Kind::LogForm => 110,
        }
    }

    /// The text that a refusal of this kind prints.
    pub fn text(self) -> &'static str
        ensures { result.now ≡ text_of self }
    {
        match self {
            Kind::Syntax => "syntax error",
            Kind::TooDeep => "nested too deep",
            Kind::TooLong => "file too long",
            Kind::TooHeavy => "too heavy",
            Kind::Unsupported => "unsupported",
            Kind::FreeValues => "free values",
            Kind::CRedeclared => "name declared twice",
            Kind::CUnknownName => "unknown name",
            Kind::CUnknownTag => "unknown struct",
            Kind::CNotInteger => "not an integer",
            Kind::CNotFunction => "not a function",
            Kind::CArgCount => "wrong number of arguments",
            Kind::CNotAssignable => "not assignable",
            Kind::CReturn => "wrong return",
            Kind::CJump => "break or continue outside",
            Kind::CConstant => "not a constant",
            Kind::CLength => "array length",
            Kind::CInitializers => "too many initializers",
            Kind::CCase => "case twice",
            Kind::CFunctionType => "function types differ",
            Kind::CNoBody => "function without body",
            Kind::CExtern => "unsupported extern",
            Kind::CLiteral => "literal too wide",
            Kind::CMain => "wrong main",
            Kind::CNoMain => "no main",
            Kind::VModuleTwice => "module declared twice",
            Kind::VTop => "no single top module",
            Kind::VRedeclared => "name declared twice",
            Kind::VPort => "wrong port",
            Kind::VUnknownName => "unknown name",
            Kind::VUnknownModule => "unknown module",
            Kind::VRecursive => "recursive instance",
            Kind::VConnection => "wrong connection",
            Kind::VOpenInput => "open input",
            Kind::VParameter => "wrong parameter",
            Kind::VConstant => "not a constant",
            Kind::VRange => "wrong range",
            Kind::VLiteral => "wrong literal",
            Kind::VMemory => "wrong use of a memory",
            Kind::VNotNet => "not a net",
            Kind::VNotRegister => "not a register",
            Kind::VLoop => "wrong loop variable",
            Kind::VLoopLong => "loop too long",
            Kind::VInitial => "wrong initial",
            Kind::VTooLarge => "module too large",
            Kind::VWide => "expression too wide",
            Kind::VUnsized => "unsized in concatenation",
            Kind::VClock => "wrong clock",
            Kind::VTwoClocks => "second clock",
            Kind::VClockRead => "clock read",
            Kind::VTwoDrivers => "two drivers",
            Kind::VNoDriver => "no driver",
            Kind::VMixed => "mixed assignment",
            Kind::VIncomplete => "incomplete sensitivity list",
            Kind::VLatch => "latch",
            Kind::VRace => "race",
            Kind::VCycle => "combinational cycle",
            Kind::BNotTop => "not the top module",
            Kind::BNoSignal => "no such signal",
            Kind::BShape => "wrong shape",
            Kind::BNarrow => "member too narrow",
            Kind::BNotInput => "not an input",
            Kind::StimForm => "wrong stimulus",
            Kind::StimLong => "too many lines",
            Kind::StimName => "unknown input",
            Kind::StimValue => "value too wide",
            Kind::LogForm => "wrong log",
        }
    }
}
