//! What follows from the contracts of a poster and a look together.

ghost use Rattle.std.specs.Prelude.{◌≡◌, ◌++◌, [], ◌∷◌};
ghost use Rattle.poly_board.specs.Posts.{NoneFalls, last_of};
ghost use Rattle.poly_board.specs.Sight.{sight};

use crate::look::Look;
use crate::posted::Posted;
use crate::poster::Poster;

/// Posts the numbers and returns what the look then reads: the same numbers. The caller holds the only poster for the whole
/// call, so nobody else can post in between, and the look can't return an earlier post. Afterwards the look knows all
/// posts. Requires a look at the poster's board, and that neither number is below that of the last post.
pub fn last_post_is_seen(poster: &mut Poster, look: &mut Look, posted: Posted) -> Posted
    requires board { look.old.board ≡ poster.old.board }
    requires rising { NoneFalls (last_of poster.old.posts) posted }
    ensures read { result ≡ posted }
    ensures posted { poster.new ≡ sight poster.old.board (poster.old.posts ++ posted ∷ []) }
    ensures seen { look.new ≡ poster.new }
{
    poster.post(posted);
    look.catch_up(poster);
    let given = look.look();
    look.catch_up(poster);
    given
}
