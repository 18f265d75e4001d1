ghost use Rattle.std.specs.Prelude.{◌≡◌, ◌+◌, vec_len, vec_capacity};
ghost use Rattle.claim_words.specs.Maps.{times_in, taken_out};

// Removes a variable from those that are held. The search starts at the end, with the last claims.
pub(crate) fn let_go(held: &mut Vec<u32>, v: u32)
    requires there { times_in v held.old.items ≡ 1 }
    ensures items { held.new.items ≡ taken_out v held.old.items }
    ensures capacity { vec_capacity held.new ≡ vec_capacity held.old }
    ensures len { vec_len held.new + 1 ≡ vec_len held.old }
{
    let mut at = held.len() - 1;
    while held[at] != v {
        at -= 1;
    }
    held.remove(at);
}
