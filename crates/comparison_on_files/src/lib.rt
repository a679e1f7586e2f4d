// Comparing and checking a mapping on files: what each call leaves in what it is lent.
// Kept as it is: the C interface lends each number and buffer apart.
#![tactic(auto)]

ghost use Rattle.std.specs.Prelude.{◌≡◌, true, cond, ◌&&◌, [], eqb, ltb, length, replicate};
ghost use Rattle.query.specs.View.{as_query};
ghost use Rattle.limits.specs.internal.Schema.{widths_in};
ghost use Rattle.query.specs.Rule.{good_tableau, no_cell};
ghost use Rattle.format.specs.Parts.{query_for};
ghost use Rattle.refusals.specs.Refusals.{reply, buffer_too_short, too_many_rows};
ghost use Rattle.refusals.specs.Refusal.{number_of, reply_of};
ghost use Rattle.comparison.specs.Comparison.{pair_refusal};
ghost use Rattle.lent_numbers.specs.Lent.{returned, leaves};
ghost use Rattle.comparison_on_files.specs.Queries.{comparison_fits, images_told, ComparisonGiven, CompareGives, words_map, checked_in, bit};
ghost use Rattle.comparison_on_files.specs.internal.Steps.{SoundComparison, verdict_fits};

use comparison::Verdict;
use encoder::{put_query, query_length};
use limits::schema::Schema;
use mapping_words::{put_mapping, read_mapping};
use query::{Cell, Tableau};
use record::Record;
use refusals::Refusal;

// ---- comparing

// Stores a verdict that has no query.
fn store_contained(
    code: u8,
    images: [Cell; 96],
    verdict: &mut u8,
    mapping: &mut [u32],
    part: &mut [u8],
    size: &mut usize,
) -> Result<(), Refusal>
    ensures { ComparisonGiven (verdict_fits (length mapping.old) (length part.old) (code, [])) images verdict.old
        mapping.old part.old size.old (returned (reply_of result)) verdict.new mapping.new part.new size.new }
{
    if mapping.len() < 192 {
        return Err(Refusal::BufferTooShort);
    }
    put_mapping(images, mapping);
    *verdict = code;
    *size = 0;
    Ok(())
}

// Stores the verdict that the first query is not contained, with its chased query and no mapping.
fn store_apart(
    chased: Tableau,
    schema: Schema,
    verdict: &mut u8,
    mapping: &mut [u32],
    part: &mut [u8],
    size: &mut usize,
) -> Result<(), Refusal>
    requires { good_tableau (widths_in schema) chased ≡ true }
    ensures { ComparisonGiven (verdict_fits (length mapping.old) (length part.old)
        (0, (query_for 24 (widths_in schema)).put (as_query chased))) (replicate 96 no_cell) verdict.old mapping.old part.old size.old
        (returned (reply_of result)) verdict.new mapping.new part.new size.new }
{
    if mapping.len() < 192 {
        return Err(Refusal::BufferTooShort);
    }
    let n = query_length(chased, schema);
    if part.len() < n {
        return Err(Refusal::BufferTooShort);
    }
    put_query(part, 0, chased, schema);
    put_mapping([query::NO_CELL; 96], mapping);
    *verdict = comparison::NOT_CONTAINED;
    *size = n;
    Ok(())
}

// The refusal of a comparison, for a mapping buffer of so many words: too many rows come after no room for a mapping.
fn refusal_for(refusal: Refusal, words: usize) -> Refusal
    ensures { number_of result ≡ cond (eqb (number_of refusal) too_many_rows && ltb words 192) buffer_too_short (number_of refusal) }
{
    if let Refusal::TooManyRows = refusal {
        if words < 192 {
            return Refusal::BufferTooShort;
        }
    }
    refusal
}

// Stores a comparison, unless it is refused: the verdict, the mapping, and the chased query.
pub fn store_comparison(
    compared: Result<Verdict, Refusal>,
    schema: Schema,
    verdict: &mut u8,
    mapping: &mut [u32],
    part: &mut [u8],
    size: &mut usize,
) -> Result<(), Refusal>
    requires { SoundComparison (widths_in schema) compared }
    ensures { ComparisonGiven (comparison_fits (length mapping.old) (length part.old) (widths_in schema) compared)
        (images_told compared) verdict.old mapping.old part.old size.old (returned (reply_of result)) verdict.new mapping.new
        part.new size.new }
{
    match compared {
        Ok(Verdict::Apart(chased)) => { store_apart(chased, schema, verdict, mapping, part, size) }
        Ok(Verdict::Mapped(images)) => store_contained(
            comparison::CONTAINED_BY_MAPPING,
            images,
            verdict,
            mapping,
            part,
            size,
        ),
        Ok(Verdict::Never) => store_contained(
            comparison::CONTAINED_AS_NEVER,
            [query::NO_CELL; 96],
            verdict,
            mapping,
            part,
            size,
        ),
        Err(refusal) => Err(refusal_for(refusal, mapping.len())),
    }
}

// ---- checking a mapping

// Checks words for two places: words that are no mapping are none between the queries.
pub fn check_words(
    given: Record,
    p: usize,
    q: usize,
    words: &[u32],
    verdict: &mut u8,
) -> Result<(), Refusal>
    ensures value { returned (reply_of result) ≡ returned (reply (pair_refusal given p q) (words_map given p q words.now)) }
    ensures verdict_after { verdict.new ≡ leaves (reply (pair_refusal given p q) (words_map given p q words.now)) bit verdict.old }
{
    let read = read_mapping(words);
    let images = read.unwrap_or([query::NO_CELL; 96]);
    let maps = comparison::check_mapping(given, p, q, images)?;
    *verdict = u8::from(maps && read.is_some());
    Ok(())
}

// ---- the calls

// Compares the queries of two places.
pub fn compare_in_file(
    file: &[u8],
    p: usize,
    q: usize,
    verdict: &mut u8,
    mapping: &mut [u32],
    part: &mut [u8],
    size: &mut usize,
) -> Result<(), Refusal>
    ensures { CompareGives file.now p q verdict.old mapping.old part.old size.old (returned (reply_of result)) verdict.new mapping.new part.new size.new }
{
    let given = file::read_record(file)?;
    let compared = comparison::compare(given, p, q);
    store_comparison(compared, given.schema(), verdict, mapping, part, size)
}

// Checks a mapping from the query of place q to that of place p.
pub fn check_in_file(
    file: &[u8],
    p: usize,
    q: usize,
    mapping: &[u32],
    verdict: &mut u8,
) -> Result<(), Refusal>
    ensures value { returned (reply_of result) ≡ returned (checked_in file.now p q mapping.now) }
    ensures verdict_after { verdict.new ≡ leaves (checked_in file.now p q mapping.now) bit verdict.old }
{
    let given = file::read_record(file)?;
    check_words(given, p, q, mapping, verdict)
}
