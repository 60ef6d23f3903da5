// What is proved of the calls' meaning, for every kind. Each function's contract names a statement of specs/.
ghost use Rattle.calls.specs.Posts.{OverPosts};
ghost use Rattle.calls.specs.Runs.{TakingBack};

use score::interface::Kind;

// Taking back leaves no trace.
pub fn taking_back_holds<K: Kind>()
    ensures { TakingBack K.Kind.model }
{}

// A layout's score is also the join of the entries that it selects in the standing posts.
pub fn scores_are_over_posts<K: Kind>()
    ensures { OverPosts K.Kind.model }
{}
