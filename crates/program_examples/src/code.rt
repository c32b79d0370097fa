//! Programs, and their code.

use crate::rows::{Asked, put};
use crate::typed;
use code_form::{Code, listing};
use eu_base::Bytes;
use packet_store::Library;
use std::alloc::Global;

/// Programs 400 deep, in cells: forms around `put (1)`, which is one deep.
pub const DEEP: &str = "\
> 399*IF TRUE THEN |put (1)|399* FI
END
> 399*SELECT 1 OF CASE 1: |put (1)|399* END SELECT
END
> 399*REP |put (1)|399* PER
END
> 133*IF TRUE THEN SELECT 1 OF CASE 1: REP |put (1)|133* PER END SELECT FI
END
";

/// Adds what is asked of the code of a text. A text without code has no answer.
pub fn answer(alloc: Global, out: &mut Bytes, text: &[u8], row: &str, asked: Asked) {
    if text.len() > 20_000 {
        return;
    }
    let library = Library::new(alloc);
    if let Ok(unit) = library.compile(alloc, &[], text, false) {
        of_code(alloc, out, unit.code(), row, asked);
        unit.let_go();
    }
    library.let_go();
}

fn of_code(alloc: Global, out: &mut Bytes, code: &Code, row: &str, asked: Asked) {
    if let Asked::Typed(rests) = asked {
        typed::run(alloc, out, code, row, rests);
    } else if let Ok(listed) = listing(alloc, code) {
        if matches!(asked, Asked::Listing) {
            put(out, listed.as_slice());
        } else if listed.as_slice().ends_with(b" END\n") {
            put(out, b"END\n");
        }
    }
}
