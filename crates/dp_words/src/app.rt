//! The program's own commands.

ghost use Rattle.std.specs.Prelude.{◌≡◌, map, IfOk};
ghost use Rattle.clap.specs.Words.{app_of};
ghost use Rattle.dp_words.specs.Program.{program, all_words, words_of};

use crate::form::Kind::{Named, Word};
use crate::form::{Form, program_of};
use clap::Command;
use std::alloc::{AllocError, Global};

/// The commands. What their words ask for: `asked_by` of the parser.
static FORMS: [Form; 6] = [
    Form {
        name: "replay",
        params: &[],
    },
    Form {
        name: "world",
        params: &[],
    },
    Form {
        name: "play",
        params: &[
            ("at", Named { required: false }),
            ("workers", Named { required: false }),
        ],
    },
    Form {
        name: "drill",
        params: &[("seed", Word), ("rounds", Word), ("workers", Word)],
    },
    Form {
        name: "join",
        params: &[("addr", Word), ("name", Word)],
    },
    Form {
        name: "serve",
        params: &[
            ("addr", Word),
            ("workers", Named { required: true }),
            ("conns", Named { required: false }),
            ("journal", Named { required: false }),
        ],
    },
];

/// The program with its commands.
pub(crate) fn drawpile_of<'a>(alloc: Global) -> Result<Command<'a>, AllocError>
    ensures { IfOk result (λ made. app_of made ≡ program) }
{
    program_of(alloc, "drawpile", forms())
}

fn forms() -> &'static [Form]
    ensures { map words_of result.now ≡ all_words }
{
    &FORMS
}
