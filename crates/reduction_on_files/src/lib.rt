// Reducing on files: what the call leaves in what it is lent.
// Kept as it is: the C interface lends each number and buffer apart.
#![tactic(auto)]

ghost use Rattle.std.specs.Prelude.{length};
ghost use Rattle.refusals.specs.Refusal.{reply_of};
ghost use Rattle.lent_numbers.specs.Lent.{returned};
ghost use Rattle.reduction_on_files.specs.Shortening.{reduction_fits, ReductionGiven, ReduceGives};
ghost use Rattle.reduction_on_files.specs.internal.Steps.{SoundReduction};

use mapping_words::put_mapping;
use reduction::Reduced;
use refusals::Refusal;
use writer::write_good;

// Stores a reduction, unless it is refused: the file of its record, the count and the mapping.
pub fn store_reduction(
    reduced: Reduced,
    out: &mut [u8],
    size: &mut usize,
    count: &mut u8,
    mapping: &mut [u32],
) -> Result<(), Refusal>
    requires { SoundReduction reduced }
    ensures { ReductionGiven (reduction_fits (length out.old) (length mapping.old) reduced) out.old size.old
        count.old mapping.old (returned (reply_of result)) out.new size.new count.new mapping.new }
{
    reduced.answer?;
    if mapping.len() < 192 {
        return Err(Refusal::BufferTooShort);
    }
    let n = write_good(reduced.record, out)?;
    put_mapping(reduced.images, mapping);
    *size = n;
    *count = reduced.count;
    Ok(())
}

// Reduces the query of one place into another.
pub fn reduce_in_file(
    file: &[u8],
    source: usize,
    target: usize,
    out: &mut [u8],
    size: &mut usize,
    count: &mut u8,
    mapping: &mut [u32],
) -> Result<(), Refusal>
    ensures { ReduceGives file.now source target out.old size.old count.old mapping.old (returned (reply_of result))
        out.new size.new count.new mapping.new }
{
    let given = file::read_record(file)?;
    let reduced = reduction::reduce(given, source, target);
    store_reduction(reduced, out, size, count, mapping)
}
