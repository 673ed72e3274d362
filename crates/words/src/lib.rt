// The caller's word store, by slices of it: thread x's eight words start at place 8 × x.

#![tactic(auto)]

ghost use Rattle.std.specs.Prelude.{◌≡◌, ◌+◌, ◌*◌, ◌≤◌, min, length, take, replicate};
ghost use Rattle.model.specs.Store.{words_at, zeroed};

// How many words a thread has.
const WORDS: usize = 8;

// Zero in every word of a slice.
pub fn zero_words(words: &mut [u32])
    ensures { words.new ≡ replicate (length words.old) 0 }
{
    words.fill(0);
}

// Zero in thread x's eight words.
pub fn zero_thread(store: &mut [u32], x: u8)
    requires { 8 * x + 8 ≤ length store.old }
    ensures { store.new ≡ zeroed x store.old }
{
    let start = WORDS * (x as usize);
    let end = start + WORDS;
    zero_words(&mut store[start..end]);
}

// The first count of thread x's eight words, as a slice of the store, as far as the store has them.
pub fn first_words<'a>(store: &'a [u32], x: u8, count: u8) -> &'a [u32]
    ensures words { result.now ≡ take count (words_at store.now x) }
    ensures place { (result.ref_ptr.0 ≡ store.entry.ref_ptr.0) × (result.ref_ptr.1 ≡ store.entry.ref_ptr.1 + 4 * min (8 * x) (length store.now)) }
{
    let start = (WORDS * (x as usize)).min(store.len());
    let most = (count as usize).min(WORDS);
    let end = (start + most).min(store.len());
    &store[start..end]
}
