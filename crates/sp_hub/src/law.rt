ghost use Rattle.sp_hub.specs.Laws.{TakesFollowPosts};

/// Law: the n-th job taken is the n-th posted, which stands before it in the history.
pub fn takes_follow_posts()
    ensures { TakesFollowPosts }
{}
