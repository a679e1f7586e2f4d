// Whether a record is as it should be, part by part, and its schema then.
ghost use Rattle.std.specs.Prelude.{◌≡◌, ◌≤◌, true, take};
ghost use Rattle.limits.specs.internal.Schema.{widths_in};
ghost use Rattle.record.specs.Rule.{good_record};
ghost use Rattle.record.specs.View.{schema_of, codes_of};
ghost use Rattle.codes.specs.internal.Codes.{codes_in};

use crate::Record;
use codes::pairs::Codes;
use limits::schema::Schema;
use query::{CodePair, Dependency};

impl Record {
    // Whether the record is as SPECIFICATION, The record, has it: what refusal 14 asks.
    pub fn is_good(self) -> bool
        ensures { result ≡ good_record self }
    {
        let Some(schema) = Schema::new(self.relations, self.widths) else {
            return false;
        };
        if !limits::codes_good(self.coded, self.codes) {
            return false;
        }
        schema.dependencies_good(self.held, self.dependencies)
            && schema.joins_good(self.joined, self.joins)
            && schema.places_good(self.places)
    }

    // The schema of a good record.
    // Kept as it is: that a record is good is no fact of its type, since refusal 14 judges records that are not.
    pub fn schema(self) -> Schema
        requires { good_record self ≡ true }
        ensures relations { result.relations ≡ self.relations }
        ensures widths { result.widths ≡ self.widths }
        ensures value { widths_in result ≡ schema_of self }
    {
        let widths = self.widths;
        Schema {
            relations: self.relations,
            widths,
        }
    }

    // The pairs of codes that are held.
    pub fn codes_held(&self) -> &[CodePair]
        requires { self.now.coded ≤ 16 }
        ensures { result.now ≡ take self.now.coded self.now.codes }
    {
        &self.codes[..self.coded as usize]
    }

    // The pairs of codes that are held, made ready to read by.
    pub fn codes(&self) -> Codes
        requires { self.now.coded ≤ 16 }
        ensures { codes_in result ≡ codes_of self.now }
    {
        Codes::new(self.codes_held())
    }

    // The functional dependencies that are held.
    pub fn dependencies_held(&self) -> &[Dependency]
        requires { self.now.held ≤ 32 }
        ensures { result.now ≡ take self.now.held self.now.dependencies }
    {
        &self.dependencies[..self.held as usize]
    }
}
