//! Laws of a replay that keeps one record and the world.
//!
//! They are functions without effect: a call brings the law into a proof.
ghost use Rattle.stream_laws.specs.Laws.{PlacesAreAlike, RecordIsAlone, RecordIsLetGo};
ghost use Rattle.stream_laws.specs.Laws.{RecordStands, RepliesAreInOrder, StreamBegins};
ghost use Rattle.stream_laws.specs.Laws.{StreamEnds, StreamGoesOn, StreamReplies};

/// A place of a recording that stands for another gives the reply of the other's place, on a world
/// that follows the other's, and the world that it leaves follows again.
pub fn places_are_alike()
    ensures { PlacesAreAlike }
{}

/// A recording of one record, with steps that do nothing in place of those before it, stands for
/// each trace that has it behind the same records. Letting go of its steps gives what the next
/// record comes behind.
pub fn records_stand_alone()
    ensures stands { RecordStands }
    ensures alone { RecordIsAlone }
    ensures let_go { RecordIsLetGo }
{}

/// A replay that lets go of each record that it has run gives the replies of the sequential run of
/// the whole trace, and ends with its world.
pub fn streams_are_sequential()
    ensures begins { StreamBegins }
    ensures replies { StreamReplies }
    ensures in_order { RepliesAreInOrder }
    ensures goes_on { StreamGoesOn }
    ensures ends { StreamEnds }
{}
