// What is proved of the records, for every kind. Each function's contract names a statement of specs/.
ghost use Rattle.worksheet.specs.Claims.{ContentsSound, OrderFree};

use score::interface::Kind;

// The contents of records in order are sound.
#[tactic(auto, using(crate::proofs::Sound::contents_sound))]
pub fn contents_are_sound<K: Kind>()
    ensures { ContentsSound K.Kind.means }
{}

// The order of the pairs does not matter.
pub fn order_is_free<K: Kind>()
    ensures { OrderFree K.Kind.means }
{}
