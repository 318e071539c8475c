// What every link is.
ghost use Rattle.std.specs.Prelude.{◌≡◌, ◌+◌, ◌≤◌, if◌then◌else◌, Some, None, Err, IfOk, MatchResult};
ghost use Rattle.refusal.specs.declared.refusals.Refusal.TheVariants.{SlotSize};
ghost use Rattle.link.specs.Links.{LinkMeaning, Lawful, bad_size, open_closed, open_answer, open_after, send_answer, send_after, close_answer, CloseAfter};

use refusal::Refusal;
use ssd1329::Transfer;

// A link means one controller, its slot, its room and its taken.
pub trait Link {
    ghost means: { Self → LinkMeaning };

    ghost lawful: { (x : Self) → Lawful (means x) };

    // Opens a slot for n transfers, 1 to 9,999; the answer is how many are granted.
    fn open(&mut self, n: u32) -> Result<u32, Refusal>
        ensures answer { result ≡ open_answer (means self.old) n }
        ensures after { means self.new ≡ open_after (means self.old) result };

    // Gives the controller one transfer.
    fn send(&mut self, t: Transfer) -> Result<(), Refusal>
        ensures answer { result ≡ send_answer (means self.old).slot }
        ensures after { means self.new ≡ send_after (means self.old) t result };

    // Ends the slot, and with it a held byte.
    fn close(&mut self) -> Result<(), Refusal>
        ensures answer { result ≡ close_answer (means self.old).slot }
        ensures after { CloseAfter (means self.old) result (means self.new) };

    // How many transfers the slot has left; none if it is closed.
    fn left(&self) -> Option<u32>
        ensures { result ≡ (means self.now).slot };

    // How many transfers the link can still take.
    fn room(&self) -> u32
        ensures { result ≡ (means self.now).room };

    // How many transfers it took since it was fresh.
    fn taken(&self) -> u32
        ensures { result ≡ (means self.now).taken };
}

// How many of n transfers a link with that slot and that room grants.
pub(crate) fn granted(slot: Option<u32>, room: u32, n: u32) -> Result<u32, Refusal>
    ensures answer { result ≡ (if bad_size n then Err SlotSize else open_closed slot room n) }
    ensures shut { IfOk result (λ grant. slot ≡ None) }
    ensures fits { IfOk result (λ grant. (1 ≤ grant) × (grant ≤ 9999) × (grant ≤ room)) }
{
    if !(1..=9999).contains(&n) {
        return Err(Refusal::SlotSize);
    }
    match slot {
        Some(_) => Err(Refusal::InUse),
        None if room == 0 => Err(Refusal::NoRoom),
        None => Ok(n.min(room)),
    }
}

// What is left of the slot of a link once a transfer is sent.
pub(crate) fn spent(slot: Option<u32>) -> Result<u32, Refusal>
    ensures { MatchResult result (λ left. slot ≡ Some (left + 1)) (λ refusal. send_answer slot ≡ Err refusal) }
{
    slot.ok_or(Refusal::NoSlot)?
        .checked_sub(1)
        .ok_or(Refusal::GrantSpent)
}
