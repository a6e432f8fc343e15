//! The names of the commands, of the patterns and of the formats.

ghost use Rattle.std.specs.Prelude.{◌≡◌};
ghost use Rattle.lbm_words.specs.Names.{command_named, pattern_named, format_named};

use crate::commands::CommandKind;
use crate::request::PatternKind;
use lbm_vtk::Format;

/// The command of a name.
pub(crate) fn command_named(name: &str) -> Option<CommandKind>
    ensures { result ≡ command_named name.now }
{
    match name {
        "run" => Some(CommandKind::Run),
        "check" => Some(CommandKind::Check),
        "demo" => Some(CommandKind::Demo),
        "voxels" => Some(CommandKind::Voxels),
        "tracer" => Some(CommandKind::Tracer),
        _ => None,
    }
}

/// The pattern of a name.
pub(crate) fn pattern_named(name: &str) -> Option<PatternKind>
    ensures { result ≡ pattern_named name.now }
{
    match name {
        "two" => Some(PatternKind::Two),
        "swap" => Some(PatternKind::Swap),
        "grid" => Some(PatternKind::Grid),
        "aa" => Some(PatternKind::Aa),
        "tiles" => Some(PatternKind::Tiles),
        _ => None,
    }
}

/// The format of a name.
pub(crate) fn format_named(name: &str) -> Option<Format>
    ensures { result ≡ format_named name.now }
{
    match name {
        "ascii" => Some(Format::Ascii),
        "binary" => Some(Format::Binary),
        _ => None,
    }
}
