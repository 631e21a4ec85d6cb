// Reading one line of the file.
ghost use Rattle.std.specs.Prelude.{◌≡◌, Err, MatchResult};
ghost use Rattle.vector_files.specs.Vectors.{GoodVector, SameVector, vector_line, ReadVector, Refused};

use crate::fields::{five_fields, read_digest, read_message, read_name};
use crate::vector::{Fault, HashName, Vector};

// The vector that a line holds, or the first thing that is wrong with the line. The last two clauses say that there is
// no other answer: the line of a good vector gives that vector, and a line's first fault is the one that is given.
pub fn read_vector(line: &[u8]) -> Result<Vector<'_>, Fault>
    ensures reads { ReadVector line.now result }
    ensures accepts { (v : Vector) → GoodVector v → line.now ≡ vector_line v → MatchResult result (λ w. SameVector v w) (λ _. ⊥) }
    ensures refuses { (f : Fault) → Refused line.now f → result ≡ Err f }
{
    let fields = five_fields(line).ok_or(Fault::FieldCount)?;
    let name = read_name(fields.name)?;
    let hash = HashName::try_from(fields.hash)?;
    let message = read_message(fields.form, fields.message)?;
    read_digest(hash, fields.digest)?;
    Ok(Vector {
        name,
        hash,
        message,
        expected: fields.digest,
    })
}
