//! Topics: the names that lines for the standard error begin with, and the exit statuses.
ghost use Rattle.std.specs.Prelude.{◌≡◌, ℕ, option_map};
ghost use Rattle.run_report.specs.EndTexts.{compile_words, decode_words, end_words, ere_words, invalid_words, link_words, parse_words, refusal_words, resolve_words, token_words};
ghost use Rattle.run_report.specs.Topics.{end_name, file_name, is_named, module_name, name_in, name_of_line, named, without_program, script_name, status_name, topic_name};

use crate::compile_fault::CompileFault;
use crate::end::{Refusal, RunEnd};
use crate::faults::trap_word;
use crate::report::FileFault;
use awk_parse::ParseFault;
use awk_resolve::ResolveFault;
use awk_tokens::TokenFault;
use awk_values::Fault;
use ere_syntax::EreFault;
use module_decoder::DecodeFault;
use module_validator::InvalidFault;
use wasm_model::LinkFault;
use wasm_store::TrapKind;

/// Why a script is refused. Of an expression that is refused the name is that of a fault.
#[derive(Clone, Copy, Drop)]
pub enum ScriptTopic {
    TooLarge,
    BadByte,
    OpenString,
    OpenEre,
    LeftOut,
    NotWhole,
    ConstantRange,
    Syntax,
    TooDeep,
    Misplaced,
    TooMany,
    DuplicateName,
    UnknownFunction,
    ArgCount,
    KindClash,
}

/// Why a module is refused.
#[derive(Clone, Copy, Drop)]
pub enum ModuleTopic {
    BadHeader,
    Truncated,
    BadSection,
    BadInteger,
    BadOpcode,
    Float,
    BadIndex,
    BadType,
    BadAlign,
    BadModule,
    NoMain,
    BadImport,
    SegmentBounds,
}

/// Why a run was cut off.
#[derive(Clone, Copy, Drop)]
pub enum EndTopic {
    OutOfSteps,
    Exhausted,
    NoMemory,
}

/// An exit status.
#[derive(Clone, Copy, Drop)]
pub enum StatusTopic {
    /// 0: the script's own.
    Own,
    /// 2: a fault.
    Faulted,
    /// 3: a refusal.
    Refused,
    /// 4: all steps were taken.
    OutOfSteps,
    /// 5: memory ran out.
    NoMemory,
    /// 6: calls were nested too deeply.
    Exhausted,
    /// 7: a trap.
    Trapped,
    /// 8: the command line, or a file that it names.
    Line,
}

/// What there is to explain.
#[derive(Clone, Copy, Drop)]
pub enum Topic {
    Fault(Fault),
    Script(ScriptTopic),
    Module(ModuleTopic),
    Trap(TrapKind),
    End(EndTopic),
    File(FileFault),
    Status(StatusTopic),
}

impl ScriptTopic {
    fn name(self) -> &'static str
        ensures { result.now ≡ script_name self }
    {
        match self {
            ScriptTopic::TooLarge => "TooLarge",
            ScriptTopic::BadByte => "BadByte",
            ScriptTopic::OpenString => "OpenString",
            ScriptTopic::OpenEre => "OpenEre",
            ScriptTopic::LeftOut => "LeftOut",
            ScriptTopic::NotWhole => "NotWhole",
            ScriptTopic::ConstantRange => "ConstantRange",
            ScriptTopic::Syntax => "Syntax",
            ScriptTopic::TooDeep => "TooDeep",
            ScriptTopic::Misplaced => "Misplaced",
            ScriptTopic::TooMany => "TooMany",
            ScriptTopic::DuplicateName => "DuplicateName",
            ScriptTopic::UnknownFunction => "UnknownFunction",
            ScriptTopic::ArgCount => "ArgCount",
            ScriptTopic::KindClash => "KindClash",
        }
    }
}

impl ModuleTopic {
    fn name(self) -> &'static str
        ensures { result.now ≡ module_name self }
    {
        match self {
            ModuleTopic::BadHeader => "BadHeader",
            ModuleTopic::Truncated => "Truncated",
            ModuleTopic::BadSection => "BadSection",
            ModuleTopic::BadInteger => "BadInteger",
            ModuleTopic::BadOpcode => "BadOpcode",
            ModuleTopic::Float => "Float",
            ModuleTopic::BadIndex => "BadIndex",
            ModuleTopic::BadType => "BadType",
            ModuleTopic::BadAlign => "BadAlign",
            ModuleTopic::BadModule => "BadModule",
            ModuleTopic::NoMain => "NoMain",
            ModuleTopic::BadImport => "BadImport",
            ModuleTopic::SegmentBounds => "SegmentBounds",
        }
    }
}

impl EndTopic {
    fn name(self) -> &'static str
        ensures { result.now ≡ end_name self }
    {
        match self {
            EndTopic::OutOfSteps => "OutOfSteps",
            EndTopic::Exhausted => "Exhausted",
            EndTopic::NoMemory => "NoMemory",
        }
    }
}

impl StatusTopic {
    fn name(self) -> &'static str
        ensures { result.now ≡ status_name self }
    {
        match self {
            StatusTopic::Own => "0",
            StatusTopic::Faulted => "2",
            StatusTopic::Refused => "3",
            StatusTopic::OutOfSteps => "4",
            StatusTopic::NoMemory => "5",
            StatusTopic::Exhausted => "6",
            StatusTopic::Trapped => "7",
            StatusTopic::Line => "8",
        }
    }
}

fn file_name(fault: FileFault) -> &'static str
    ensures { result.now ≡ file_name fault }
{
    match fault {
        FileFault::CannotRead => "CannotRead",
        FileFault::CannotWrite => "CannotWrite",
    }
}

impl Topic {
    /// The name, as lines for the standard error have it; of a status its digits.
    pub fn name(self) -> &'static str
        ensures { result.now ≡ topic_name self }
    {
        match self {
            Topic::Fault(fault) => fault.name(),
            Topic::Script(refusal) => refusal.name(),
            Topic::Module(refusal) => refusal.name(),
            Topic::Trap(kind) => trap_word(&kind),
            Topic::End(end) => end.name(),
            Topic::File(fault) => file_name(fault),
            Topic::Status(status) => status.name(),
        }
    }
}

/// All topics, in the order in which they are listed.
pub const TOPICS: [Topic; 67] = [
    Topic::Fault(Fault::Range),
    Topic::Fault(Fault::Fraction),
    Topic::Fault(Fault::DivisionByZero),
    Topic::Fault(Fault::Inexact),
    Topic::Fault(Fault::FieldNumber),
    Topic::Fault(Fault::Format),
    Topic::Fault(Fault::BadEre),
    Topic::Fault(Fault::EreTooLarge),
    Topic::Fault(Fault::TextLimit),
    Topic::Fault(Fault::OpenInput),
    Topic::Fault(Fault::ReadFailed),
    Topic::Fault(Fault::OpenOutput),
    Topic::Fault(Fault::WriteFailed),
    Topic::Fault(Fault::TooManyStreams),
    Topic::Fault(Fault::NextOutside),
    Topic::Fault(Fault::BadAssignment),
    Topic::Script(ScriptTopic::TooLarge),
    Topic::Script(ScriptTopic::BadByte),
    Topic::Script(ScriptTopic::OpenString),
    Topic::Script(ScriptTopic::OpenEre),
    Topic::Script(ScriptTopic::LeftOut),
    Topic::Script(ScriptTopic::NotWhole),
    Topic::Script(ScriptTopic::ConstantRange),
    Topic::Script(ScriptTopic::Syntax),
    Topic::Script(ScriptTopic::TooDeep),
    Topic::Script(ScriptTopic::Misplaced),
    Topic::Script(ScriptTopic::TooMany),
    Topic::Script(ScriptTopic::DuplicateName),
    Topic::Script(ScriptTopic::UnknownFunction),
    Topic::Script(ScriptTopic::ArgCount),
    Topic::Script(ScriptTopic::KindClash),
    Topic::Module(ModuleTopic::BadHeader),
    Topic::Module(ModuleTopic::Truncated),
    Topic::Module(ModuleTopic::BadSection),
    Topic::Module(ModuleTopic::BadInteger),
    Topic::Module(ModuleTopic::BadOpcode),
    Topic::Module(ModuleTopic::Float),
    Topic::Module(ModuleTopic::BadIndex),
    Topic::Module(ModuleTopic::BadType),
    Topic::Module(ModuleTopic::BadAlign),
    Topic::Module(ModuleTopic::BadModule),
    Topic::Module(ModuleTopic::NoMain),
    Topic::Module(ModuleTopic::BadImport),
    Topic::Module(ModuleTopic::SegmentBounds),
    Topic::Trap(TrapKind::Unreachable),
    Topic::Trap(TrapKind::DivideByZero),
    Topic::Trap(TrapKind::IntegerOverflow),
    Topic::Trap(TrapKind::MemoryBounds),
    Topic::Trap(TrapKind::TableBounds),
    Topic::Trap(TrapKind::EmptyElement),
    Topic::Trap(TrapKind::WrongType),
    Topic::Trap(TrapKind::BadHandle),
    Topic::Trap(TrapKind::BadPointer),
    Topic::Trap(TrapKind::BadArgument),
    Topic::End(EndTopic::OutOfSteps),
    Topic::End(EndTopic::Exhausted),
    Topic::End(EndTopic::NoMemory),
    Topic::File(FileFault::CannotRead),
    Topic::File(FileFault::CannotWrite),
    Topic::Status(StatusTopic::Own),
    Topic::Status(StatusTopic::Faulted),
    Topic::Status(StatusTopic::Refused),
    Topic::Status(StatusTopic::OutOfSteps),
    Topic::Status(StatusTopic::NoMemory),
    Topic::Status(StatusTopic::Exhausted),
    Topic::Status(StatusTopic::Trapped),
    Topic::Status(StatusTopic::Line),
];

fn token_topic(fault: &TokenFault) -> Topic
    ensures { topic_name result ≡ name_in (token_words fault.now) }
{
    match fault {
        TokenFault::BadByte(_) => Topic::Script(ScriptTopic::BadByte),
        TokenFault::OpenString(_) => Topic::Script(ScriptTopic::OpenString),
        TokenFault::OpenEre(_) => Topic::Script(ScriptTopic::OpenEre),
        TokenFault::NoMemory => Topic::End(EndTopic::NoMemory),
    }
}

fn parse_topic(fault: &ParseFault) -> Topic
    ensures { topic_name result ≡ name_in (parse_words fault.now) }
{
    match fault {
        ParseFault::LeftOut(_, _) => Topic::Script(ScriptTopic::LeftOut),
        ParseFault::NotWhole(_) => Topic::Script(ScriptTopic::NotWhole),
        ParseFault::ConstantRange(_) => Topic::Script(ScriptTopic::ConstantRange),
        ParseFault::Syntax(_) => Topic::Script(ScriptTopic::Syntax),
        ParseFault::TooDeep(_) => Topic::Script(ScriptTopic::TooDeep),
        ParseFault::Misplaced(_) => Topic::Script(ScriptTopic::Misplaced),
        ParseFault::NoMemory => Topic::End(EndTopic::NoMemory),
    }
}

fn ere_topic(fault: &EreFault) -> Topic
    ensures { (line : ℕ) → topic_name result ≡ name_in (ere_words line fault.now) }
{
    match fault {
        EreFault::BadEre(_) => Topic::Fault(Fault::BadEre),
        EreFault::EreTooLarge => Topic::Fault(Fault::EreTooLarge),
        EreFault::NoMemory => Topic::End(EndTopic::NoMemory),
    }
}

fn resolve_topic(fault: &ResolveFault) -> Topic
    ensures { topic_name result ≡ name_in (resolve_words fault.now) }
{
    match fault {
        ResolveFault::TooMany(_) => Topic::Script(ScriptTopic::TooMany),
        ResolveFault::DuplicateName(_) => Topic::Script(ScriptTopic::DuplicateName),
        ResolveFault::UnknownFunction(_) => Topic::Script(ScriptTopic::UnknownFunction),
        ResolveFault::ArgCount(_) => Topic::Script(ScriptTopic::ArgCount),
        ResolveFault::KindClash(_) => Topic::Script(ScriptTopic::KindClash),
        ResolveFault::NoMemory => Topic::End(EndTopic::NoMemory),
    }
}

fn compile_topic(fault: &CompileFault) -> Topic
    ensures { topic_name result ≡ name_in (compile_words fault.now) }
{
    match fault {
        CompileFault::TooLarge => Topic::Script(ScriptTopic::TooLarge),
        CompileFault::Token(fault) => token_topic(fault),
        CompileFault::Parse(fault) => parse_topic(fault),
        CompileFault::Ere(_, fault) => ere_topic(fault),
        CompileFault::Resolve(fault) => resolve_topic(fault),
        CompileFault::NoMemory => Topic::End(EndTopic::NoMemory),
    }
}

fn decode_topic(fault: &DecodeFault) -> Topic
    ensures { topic_name result ≡ name_in (decode_words fault.now) }
{
    match fault {
        DecodeFault::BadHeader => Topic::Module(ModuleTopic::BadHeader),
        DecodeFault::Truncated(_) => Topic::Module(ModuleTopic::Truncated),
        DecodeFault::BadSection(_) => Topic::Module(ModuleTopic::BadSection),
        DecodeFault::BadInteger(_) => Topic::Module(ModuleTopic::BadInteger),
        DecodeFault::BadOpcode(_) => Topic::Module(ModuleTopic::BadOpcode),
        DecodeFault::Float(_) => Topic::Module(ModuleTopic::Float),
        DecodeFault::TooLarge => Topic::Script(ScriptTopic::TooLarge),
        DecodeFault::NoMemory => Topic::End(EndTopic::NoMemory),
    }
}

fn invalid_topic(fault: &InvalidFault) -> Topic
    ensures { topic_name result ≡ name_in (invalid_words fault.now) }
{
    match fault {
        InvalidFault::BadIndex(_) => Topic::Module(ModuleTopic::BadIndex),
        InvalidFault::BadType(_) => Topic::Module(ModuleTopic::BadType),
        InvalidFault::BadAlign(_) => Topic::Module(ModuleTopic::BadAlign),
        InvalidFault::BadModule => Topic::Module(ModuleTopic::BadModule),
        InvalidFault::NoMemory => Topic::End(EndTopic::NoMemory),
    }
}

fn link_topic(fault: &LinkFault) -> Topic
    ensures { topic_name result ≡ name_in (link_words fault.now) }
{
    match fault {
        LinkFault::NoMain => Topic::Module(ModuleTopic::NoMain),
        LinkFault::BadImport(_) => Topic::Module(ModuleTopic::BadImport),
        LinkFault::SegmentBounds => Topic::Module(ModuleTopic::SegmentBounds),
        LinkFault::NoMemory => Topic::End(EndTopic::NoMemory),
    }
}

fn refusal_topic(refusal: &Refusal) -> Topic
    ensures { topic_name result ≡ name_in (refusal_words refusal.now) }
{
    match refusal {
        Refusal::Compile(fault) => compile_topic(fault),
        Refusal::Decode(fault) => decode_topic(fault),
        Refusal::Invalid(fault) => invalid_topic(fault),
        Refusal::Link(fault) => link_topic(fault),
    }
}

/// The topic of the name that is told of an end; none where the end has a status of its own. A new end, refusal, fault or trap asks for one here.
pub fn topic_of(end: &RunEnd) -> Option<Topic>
    ensures { option_map topic_name result ≡ option_map name_in (end_words end.now) }
{
    let topic = match end {
        RunEnd::Ended(_) => return None,
        RunEnd::Faulted(fault) => Topic::Fault(*fault),
        RunEnd::OutOfSteps => Topic::End(EndTopic::OutOfSteps),
        RunEnd::Exhausted => Topic::End(EndTopic::Exhausted),
        RunEnd::NoMemory => Topic::End(EndTopic::NoMemory),
        RunEnd::Refused(refusal) => refusal_topic(refusal),
        RunEnd::Trapped(kind) => Topic::Trap(*kind),
    };
    Some(topic)
}

/// A line without the program's name before it.
fn without_program(text: &str) -> &str
    ensures { result.now ≡ without_program text.now }
{
    match text.strip_prefix("awkwasm: ") {
        Some(rest) => rest,
        None => text,
    }
}

/// The name in a line, or alone.
fn name_of_line(text: &str) -> &str
    ensures { result.now ≡ name_of_line text.now }
{
    let told = without_program(text);
    match told.split_once(' ') {
        Some((name, _)) => name,
        None => told,
    }
}

/// Whether a topic has this name, in capital letters or small ones.
fn is_named(topic: Topic, name: &str) -> bool
    ensures { result ≡ is_named name.now topic }
{
    topic.name().eq_ignore_ascii_case(name)
}

/// The topic of a name, in capital letters or small ones; or of the name in a line, as it is on the standard error.
pub fn topic_named(text: &str) -> Option<Topic>
    ensures { result ≡ named text.now }
{
    let name = name_of_line(text);
    TOPICS.iter().copied().find(|topic| is_named(*topic, name))
}
