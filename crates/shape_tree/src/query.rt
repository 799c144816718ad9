//! Which records are asked for.
ghost use Rattle.std.specs.Prelude.{◌≡◌};

use rooms_val::{Text, Val};

/// What is asked of the fields of a record.
#[derive(Drop)]
pub enum Query {
    /// The field is there, and is the value.
    Eq(Text, Val),
    /// The field is there, and is another value.
    Neq(Text, Val),
    /// The field is there, and is a greater number.
    Gt(Text, i64),
    /// Each of them is met; none need be there.
    And(Vec<Query>),
    /// One of them is met.
    Or(Vec<Query>),
    /// It is not met.
    Not(Box<Query>),
}

impl Query {
    ghost use Rattle.rooms_val.specs.View.{data_of};
    ghost use Rattle.shape_tree.specs.Queries.{meets};

    /// Whether the record meets the query. It costs the query, with a logarithm of the record for each field.
    pub fn is_met(&self, val: &Val) -> bool
        ensures { result ≡ meets (data_of val.now) self.now }
    {
        match self {
            Query::Eq(name, value) => match val.get(name.as_str()) {
                Some(found) => found == value,
                None => false,
            },
            Query::Neq(name, value) => match val.get(name.as_str()) {
                Some(found) => found != value,
                None => false,
            },
            Query::Gt(name, number) => match val.get(name.as_str()) {
                Some(found) => match found.as_int() {
                    Some(theirs) => *number < theirs,
                    None => false,
                },
                None => false,
            },
            Query::And(queries) => {
                'all: for query in queries {
                    if !query.is_met(val) {
                        return false;
                    }
                }
                true
            }
            Query::Or(queries) => {
                'one: for query in queries {
                    if query.is_met(val) {
                        return true;
                    }
                }
                false
            }
            Query::Not(query) => !query.is_met(val),
        }
    }
}
