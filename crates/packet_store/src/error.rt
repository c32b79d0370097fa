//! Why a text is refused, and why a packet is not installed.

ghost use Rattle.std.specs.Prelude.{◌≡◌};
ghost use Rattle.packet_store.specs.declared.error.CompileError.TheVariants as compile_errors;
ghost use Rattle.packet_store.specs.declared.error.InstallError.TheVariants as install_errors;

use elan_check::CheckError;
use elan_lexer::LexError;
use elan_parser::ParseError;
use eu_base::NoMemory;
use units::Refusal;

/// Why there is no unit.
#[derive(Clone, Copy, PartialEq, Eq)]
pub enum CompileError {
    NoMemory,
    Refused(Refusal),
}

/// Why a packet is not installed.
#[derive(Clone, Copy, PartialEq, Eq)]
pub enum InstallError {
    NoMemory,
    /// As many packets live as can, or the last number was given.
    Full,
}

impl From<NoMemory> for CompileError {
    ghost from_gives = { λ _ e. e ≡ compile_errors.NoMemory };

    fn from(_refusal: NoMemory) -> CompileError {
        CompileError::NoMemory
    }
}

impl From<NoMemory> for InstallError {
    ghost from_gives = { λ _ e. e ≡ install_errors.NoMemory };

    fn from(_refusal: NoMemory) -> InstallError {
        InstallError::NoMemory
    }
}

impl From<LexError> for CompileError {
    ghost use Rattle.packet_store.specs.Meaning as meaning;

    ghost from_gives = { λ cause e. e ≡ meaning.of_lexer cause };

    fn from(cause: LexError) -> CompileError {
        match cause {
            LexError::NoMemory => CompileError::NoMemory,
            LexError::NoToken(place) => CompileError::Refused(Refusal::NoToken(place)),
            LexError::TooMany => CompileError::Refused(Refusal::TooMany),
        }
    }
}

impl From<ParseError> for CompileError {
    ghost use Rattle.packet_store.specs.Meaning as meaning;

    ghost from_gives = { λ cause e. e ≡ meaning.of_parser cause };

    fn from(cause: ParseError) -> CompileError {
        match cause {
            ParseError::NoMemory => CompileError::NoMemory,
            ParseError::NotElan(place) => CompileError::Refused(Refusal::NotElan(place)),
        }
    }
}

impl From<CheckError> for CompileError {
    ghost use Rattle.packet_store.specs.Meaning as meaning;

    ghost from_gives = { λ cause e. e ≡ meaning.of_check cause };

    fn from(cause: CheckError) -> CompileError {
        match cause {
            CheckError::NoMemory => CompileError::NoMemory,
            CheckError::NoMeaning(place, why) => {
                CompileError::Refused(Refusal::NoMeaning(place, why))
            }
        }
    }
}
