//! What keeps JSON from being a value.
ghost use Rattle.std.specs.Prelude.{◌≡◌, ◌&&◌, true, not, nat_le};
ghost use Rattle.serde_json.specs.Data.{depth, items_depth, members_depth};
ghost use Rattle.serde_json.specs.View.{view, items_view, members_view, number_view};
ghost use Rattle.serde_json.specs.Find.{is_float};
ghost use Rattle.serde_json.specs.Written.{has_float, items_have_float, members_have_float};
ghost use Rattle.rooms_val.specs.Json.{is_in_range, is_within, items_are_within, members_are_within};

use crate::limits::GREATEST_WHOLE;
use serde_json::{Map, Number, Value};

/// What some JSON has, each in all of it.
#[derive(Clone, Copy)]
pub(crate) struct Survey {
    /// Its numbers are whole.
    pub is_whole: bool,
    /// Its whole numbers are in range.
    pub is_within: bool,
    /// It nests at most as deep as was asked.
    pub is_shallow: bool,
}

impl Survey {
    /// What JSON has of which nothing is known to the contrary.
    const CLEAR: Survey = Survey {
        is_whole: true,
        is_within: true,
        is_shallow: true,
    };

    /// What the JSON has, where it may nest so many levels deep.
    #[cycle(survey)]
    pub fn of(json: &Value, levels: usize) -> Survey
        ensures whole { result.is_whole ≡ not (has_float (view json.now)) }
        ensures within { result.is_within ≡ is_within (view json.now) }
        ensures shallow { result.is_shallow ≡ nat_le (depth (view json.now)) levels }
    {
        match json {
            Value::Null | Value::Bool(_) | Value::String(_) => Survey::CLEAR,
            Value::Number(number) => Survey::of_number(number),
            Value::Array(items) => Survey::of_items(items, levels.saturating_sub(1)).under(levels),
            Value::Object(members) => {
                Survey::of_members(members, levels.saturating_sub(1)).under(levels)
            }
        }
    }

    fn of_number(number: &Number) -> Survey
        ensures whole { result.is_whole ≡ not (is_float (number_view number.now)) }
        ensures within { result.is_within ≡ is_in_range (number_view number.now) }
        ensures shallow { result.is_shallow ≡ true }
    {
        Survey {
            is_whole: !number.is_f64(),
            is_within: is_within_range(number),
            is_shallow: true,
        }
    }

    #[cycle(survey)]
    fn of_items(items: &Vec<Value>, levels: usize) -> Survey
        ensures whole { result.is_whole ≡ not (items_have_float (items_view items.now.items)) }
        ensures within { result.is_within ≡ items_are_within (items_view items.now.items) }
        ensures shallow { result.is_shallow
            ≡ nat_le (items_depth (items_view items.now.items)) levels }
    {
        let mut all = Survey::CLEAR;
        for item in items {
            all = all.and(Survey::of(item, levels));
        }
        all
    }

    #[cycle(survey)]
    fn of_members(members: &Map<String, Value>, levels: usize) -> Survey
        ensures whole { result.is_whole
            ≡ not (members_have_float (members_view members.now.entries)) }
        ensures within { result.is_within ≡ members_are_within (members_view members.now.entries) }
        ensures shallow { result.is_shallow
            ≡ nat_le (members_depth (members_view members.now.entries)) levels }
    {
        let mut all = Survey::CLEAR;
        for (_, member) in members.iter() {
            all = all.and(Survey::of(member, levels));
        }
        all
    }

    /// What two parts have together.
    fn and(self, other: Survey) -> Survey
        ensures whole { result.is_whole ≡ (self.is_whole && other.is_whole) }
        ensures within { result.is_within ≡ (self.is_within && other.is_within) }
        ensures shallow { result.is_shallow ≡ (self.is_shallow && other.is_shallow) }
    {
        Survey {
            is_whole: self.is_whole && other.is_whole,
            is_within: self.is_within && other.is_within,
            is_shallow: self.is_shallow && other.is_shallow,
        }
    }

    /// What a list or map has that has this inside, where so many levels are left for it.
    fn under(self, levels: usize) -> Survey
        ensures whole { result.is_whole ≡ self.is_whole }
        ensures within { result.is_within ≡ self.is_within }
        ensures shallow { result.is_shallow ≡ (self.is_shallow && nat_le 1 levels) }
    {
        Survey {
            is_shallow: self.is_shallow && levels >= 1,
            ..self
        }
    }
}

// Whether the number is in range, where it is whole.
fn is_within_range(number: &Number) -> bool
    ensures { result ≡ is_in_range (number_view number.now) }
{
    if number.is_f64() {
        return true;
    }
    match number.as_i64() {
        Some(whole) => -GREATEST_WHOLE <= whole && whole <= GREATEST_WHOLE,
        None => false,
    }
}
