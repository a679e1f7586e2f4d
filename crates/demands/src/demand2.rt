// Demand 2: containment is decided over all databases, answers are those of conjunctive queries, and files and records come back as they were.
ghost use Rattle.demands.specs.Demand2.{Decides, Evaluates, FileComesBack, RecordComesBack, RecordComesBackAlone};

use comparison::Verdict;
use record::{Outcome, Record};
use refusals::Refusal;

// Contained exactly when it is so on every database that obeys the dependencies; otherwise one is shown on which it is not.
pub fn compare(given: Record, p: usize, q: usize) -> Result<Verdict, Refusal>
    ensures { Decides given p q result }
{
    comparison::compare(given, p, q)
}

// The answers are those of conjunctive queries over finite tables, ascending, each once.
pub fn evaluate(
    given: Record,
    place: usize,
    words: &[u32],
    buffer: &mut [u32],
) -> Result<usize, Refusal>
    ensures { Evaluates given place words.now buffer.old buffer.new result }
{
    database::evaluate(given, place, words, buffer)
}

// The same in lent memory.
// Kept as it is: the C interface lends each buffer apart.
pub fn evaluate_lent(
    given: Record,
    place: usize,
    words: &[u32],
    buffer: &mut [u32],
    index: &mut [u32],
    states: &mut [u32],
    batch: &mut [u32],
    scratch: &mut [u32],
) -> Result<usize, Refusal>
    ensures { Evaluates given place words.now buffer.old buffer.new result }
{
    database::evaluate_lent(given, place, words, buffer, index, states, batch, scratch)
}

// A file that is read, and its record written: the same bytes.
pub fn write_back(file: &[u8], buffer: &mut [u8]) -> Result<usize, Refusal>
    ensures { FileComesBack file.now buffer.old buffer.new result }
{
    let read = file::read(file);
    read.answer?;
    file::write(read.record, buffer)
}

// A record that is written, and its file read: the same record.
pub fn read_back(given: Record, buffer: &mut [u8]) -> Outcome
    ensures { RecordComesBack given buffer.old result }
{
    match file::write(given, buffer) {
        Ok(n) => file::read(&buffer[..n]),
        Err(refusal) => Outcome {
            answer: Err(refusal),
            record: given,
        },
    }
}

// A file that is read as the exported calls read it, and its record written: the same bytes.
pub fn write_record_back(file: &[u8], buffer: &mut [u8]) -> Result<usize, Refusal>
    ensures { FileComesBack file.now buffer.old buffer.new result }
{
    let read = file::read_record(file)?;
    file::write(read, buffer)
}

// A record that is written, and its file read as the exported calls read it: the same record.
pub fn read_record_back(given: Record, buffer: &mut [u8]) -> Result<Record, Refusal>
    ensures { RecordComesBackAlone given buffer.old result }
{
    let n = file::write(given, buffer)?;
    file::read_record(&buffer[..n])
}
