//! What was copied.
ghost use Rattle.rooms_val.specs.Answers.{Gives};
ghost use Rattle.rooms_val.specs.Json.{greatest_whole};
ghost use Rattle.shape_tree.specs.Boxes.{IsWithin};
ghost use Rattle.clip_content.specs.Copied.{taken};
ghost use Rattle.clip_content.specs.Pasted.{pasted};
ghost use Rattle.clip_content.specs.View.{clip_tree};
ghost use Rattle.room_model.specs.declared.clip_fault.ClipFault.TheVariants as clip_fault;
ghost use Rattle.room_model.specs.declared.clip_fault.PasteFault.TheVariants as paste_fault;

use crate::behind::keys_behind;
use crate::copying::{bindings_within, first_again, first_missing, shapes_under};
use crate::limits::MOST_COPIED;
use crate::new_ids::first_taken;
use crate::pasting::puts;
use crate::target::Target;
use crate::tops::{indices_of, tops};
use field_ops::Diff;
use room_model::clip_fault::{ClipFault, PasteFault};
use rooms_val::{Fields, Text};
use std::alloc::Global;

/// Shapes of a document with all that hangs under them, and the bindings between these shapes, as they were when they were
/// copied.
#[derive(Drop)]
pub struct Clip {
    // The shapes, by their ids in the document.
    pub(crate) shapes: Fields,
    // The bindings with both ends among these, by their ids in the document.
    pub(crate) bindings: Fields,
}

impl Clip {
    /// A copy of some shapes of a document with all that hangs under them, and of the bindings between all these.
    ///
    /// The records are those of the document, by their ids. A field that is no text counts as the empty text. What is
    /// copied is shared.
    ///
    /// Each of the ids costs a few look-ups, and a move of the greater ones that stand before it. Then there are two passes
    /// over the records. The first is for the shapes: it costs two look-ups for each shape, and two for each of the shape's
    /// parents. The second is for the bindings: it costs two look-ups for each binding.
    ///
    /// # Errors
    /// The first of these that applies:
    /// - `NoShape`: the first of the ids that is no shape of the document.
    /// - `Doubled`: the first of the ids that stood before it.
    /// - `TooMany`: there are more than 4,096 shapes or more than 4,096 bindings to copy.
    ///
    /// `OutOfMemory` may come in place of any.
    pub fn take(alloc: Global, records: &Fields, ids: &[Text]) -> Result<Clip, ClipFault>
        ensures { Gives clip_fault.OutOfMemory clip_tree result (taken records.now ids.now) }
    {
        if let Some(id) = first_missing(records, ids) {
            return Err(ClipFault::NoShape(id.copy(alloc)?));
        }
        if let Some(id) = first_again(alloc, ids)? {
            return Err(ClipFault::Doubled(id));
        }
        let shapes = shapes_under(alloc, records, ids)?;
        let bindings = bindings_within(alloc, records, &shapes)?;
        if shapes.len() > MOST_COPIED || bindings.len() > MOST_COPIED {
            return Err(ClipFault::TooMany);
        }
        Ok(Clip { shapes, bindings })
    }

    /// The diff that pastes what was copied into a document, perhaps another one.
    ///
    /// Each record gets a new id: its type, `:`, the prefix, and its place among the copied records of its type, from 0 in
    /// four digits. The tops, which are the shapes whose parents weren't copied, go under the given parent, moved by `dx`
    /// and `dy`, each within 2^53 - 1 on either side of 0. Their indices come behind all that the parent's children have,
    /// in the order that they had by index and then by id. A coordinate that is no whole number in range counts as 0. The
    /// other shapes and the bindings name the new ids of their parents and ends.
    ///
    /// It looks at each record of the document once, and copies each record that it adds.
    ///
    /// # Errors
    /// The first of these that applies:
    /// - `Taken`: the least of the new ids that the document has.
    /// - `NoKey`: there are no keys for the tops behind the children of the parent.
    ///
    /// `OutOfMemory` may come in place of any.
    pub fn paste(
        &self,
        alloc: Global,
        records: &Fields,
        prefix: &str,
        parent: &str,
        dx: i64,
        dy: i64,
    ) -> Result<Diff, PasteFault>
        requires dx { IsWithin greatest_whole dx }
        requires dy { IsWithin greatest_whole dy }
        ensures { Gives paste_fault.OutOfMemory (λ d. d) result
            (pasted (clip_tree self.now) records.now
            (record { prefix = prefix.now; parent = parent.now; dx = dx; dy = dy })) }
    {
        let target = Target {
            prefix,
            parent,
            dx,
            dy,
        };
        if let Some(id) = first_taken(alloc, self, &target, records)? {
            return Err(PasteFault::Taken(id));
        }
        let tops = tops(alloc, self)?;
        let keys = keys_behind(alloc, records, parent, tops.len())?;
        let indices = indices_of(alloc, &tops, &keys)?;
        Ok(puts(alloc, self, &target, &indices)?)
    }
}
