// The record of a file: the directory names the parts, and the first fault decides.
#![tactic(auto)]

ghost use Rattle.std.specs.Prelude.{◌≡◌, true, ◌+◌, ◌*◌, ◌≤◌, length, drop};
ghost use Rattle.format.specs.File.{read_all, read_file, read_outcome, directory, chained, stretches};
ghost use Rattle.record.specs.Calls.{outcome_reply};
ghost use Rattle.refusals.specs.Refusal.{reply_of};
ghost use Rattle.reader.specs.internal.Read.{directory_read};

use parsing::{read_codes, read_dependencies, read_joins, read_relations, word16};
use places::{part, read_places};
use record::calls::{done, refused};
use record::{Outcome, Record};
use record_calls::blank_record;
use refusals::Refusal;

// ---- the directory

// Whether the pairs obey the offset rule: the first part starts where the pairs end, each next where the previous ends, and the last ends the file.
// Kept as it is: `due` goes from pair to pair, so a loop it is, and of a chunk of four bytes the two numbers would be read at positions too.
fn chain(file: &[u8], n: usize) -> bool
    requires { (n ≤ 10) × (2 + 4 * n ≤ length file.now) }
    ensures { result ≡ chained n (2 + 4 * n) (length file.now) (drop 2 file.now) }
{
    let mut due = 2 + 4 * n;
    for k in 0..n {
        let offset = word16(file, 2 + 4 * k) as usize;
        let size = word16(file, 4 + 4 * k) as usize;
        if offset != due {
            return false;
        }
        due = due + size;
    }
    due == file.len()
}

// The directory: refused if the pairs do not fit, and if one breaks the offset rule.
fn read_directory(file: &[u8]) -> Result<usize, Refusal>
    ensures { reply_of result ≡ directory_read (directory file.now) }
{
    if file.len() < 2 {
        return Err(Refusal::BadDirectory);
    }
    let n = word16(file, 0) as usize;
    if n < 2 {
        return Err(Refusal::BadDirectory);
    }
    if 10 < n {
        return Err(Refusal::BadDirectory);
    }
    if file.len() < 2 + 4 * n {
        return Err(Refusal::BadDirectory);
    }
    if chain(file, n) {
        return Ok(n);
    }
    Err(Refusal::BadOffsets)
}

// ---- all parts

// The parts in file order: relations, pairs of codes, dependencies of both kinds, then places.
fn read_parts(file: &[u8], n: usize) -> Result<Record, Refusal>
    requires le_n { (2 ≤ n) × (n ≤ 10) × (2 + 4 * n ≤ length file.now) }
    requires file_value { chained n (2 + 4 * n) (length file.now) (drop 2 file.now) ≡ true }
    ensures { reply_of result ≡ read_all (stretches n file.now (drop 2 file.now)) }
{
    let (schema, more) = read_relations(part(file, 0)).ok_or(Refusal::BadRelations)?;
    let (coded, codes) = read_codes(more).ok_or(Refusal::BadCode)?;
    let functional = read_dependencies(part(file, 1), schema).ok_or(Refusal::BadDependency)?;
    let ((held, dependencies), rest) = functional;
    let (joined, joins) = read_joins(rest, schema).ok_or(Refusal::BadJoin)?;
    let places = read_places(file, n, schema)?;
    let widths = schema.widths;
    Ok(Record {
        relations: schema.relations,
        widths,
        coded,
        codes,
        held,
        dependencies,
        joined,
        joins,
        places,
    })
}

// The record of a file, or the first fault.
pub fn read_record(file: &[u8]) -> Result<Record, Refusal>
    ensures { reply_of result ≡ read_file file.now }
{
    let n = read_directory(file)?;
    read_parts(file, n)
}

// Read a file: its record, or the first fault and the blank record.
pub fn read(file: &[u8]) -> Outcome
    ensures { outcome_reply result ≡ read_outcome (read_file file.now) }
{
    match read_record(file) {
        Ok(found) => done(found),
        Err(refusal) => refused(refusal, blank_record()),
    }
}
