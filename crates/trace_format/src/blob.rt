//! Bytes of a text that several owners share.
ghost use Rattle.std.specs.Prelude.{◌≡◌, ◌+◌, ◌≤◌, ◌==◌, [], length, take, drop, IfOk, IfNone, IfSome};

use std::alloc::{AllocError, Global};
use std::marker::Model;
use std::sync::Arc;

/// The text of a trace, which what was read of it shares.
pub type Text = Arc<Vec<u8>>;

/// Bytes of a text, with the text, so that who keeps them may share it.
#[derive(Clone, Copy)]
pub struct TextSlice<'a> {
    /// The text that they lie in.
    pub text: &'a Text,
    /// Where in the text they begin.
    pub from: usize,
    len: usize,
    pub ghost inside: { from + len ≤ length text.now.value.items },
}

impl<'a> TextSlice<'a> {
    ghost use Rattle.trace_format.specs.Blobs.{sliced};

    /// So many bytes of a text, from a place on.
    #[inline(always)]
    pub fn of(text: &'a Text, from: usize, len: usize) -> Self
        requires { from + len ≤ length text.now.value.items }
        ensures { sliced result ≡ take len (drop from text.entry.now.value.items) }
    {
        TextSlice { text, from, len }
    }

    /// No bytes of a text.
    pub(crate) fn empty(text: &'a Text) -> Self
        ensures { sliced result ≡ [] }
    {
        TextSlice::of(text, 0, 0)
    }

    /// How many there are.
    pub fn len(self) -> usize
        ensures { result ≡ length (sliced self.entry) }
    {
        self.len
    }

    /// Whether there are none.
    pub fn is_empty(self) -> bool
        ensures { result ≡ (length (sliced self.entry) == 0) }
    {
        self.len == 0
    }

    /// The bytes as a slice.
    #[inline(always)]
    pub fn as_slice(self) -> &'a [u8]
        ensures { result.now ≡ sliced self.entry }
    {
        &self.text[self.from..self.from + self.len]
    }

    /// Those behind the first so many.
    pub fn behind(self, count: usize) -> TextSlice<'a>
        requires { count ≤ length (sliced self) }
        ensures { sliced result ≡ drop count (sliced self.entry) }
    {
        TextSlice::of(self.text, self.from + count, self.len - count)
    }

    /// A blob of them, none of which is copied. Of none it takes no memory.
    ///
    /// # Errors
    ///
    /// `AllocError` where the text has too many owners.
    pub fn shared(self) -> Result<Blob, AllocError>
        ensures { IfOk result (λ blob. blob ≡ sliced self.entry) }
    {
        Blob::part(self.text, self.from as u64, self.len)
    }

    /// The first so many.
    pub fn first(self, count: usize) -> TextSlice<'a>
        requires { count ≤ length (sliced self) }
        ensures { sliced result ≡ take count (sliced self.entry) }
    {
        TextSlice::of(self.text, self.from, count)
    }
}

/// Bytes, which contracts see as a list: a range of a text that several of these share, so that
/// what is read is not copied.
#[derive(Drop)]
pub struct Blob {
    text: Option<Text>,
    from: usize,
    len: usize,
}

impl Model for Blob {
    ghost use Rattle.std.specs.Prelude.{ℕ, ◌+◌, ◌≤◌, List, length};

    ghost Value = { List ℕ };

    ghost use Rattle.trace_format.specs.Blobs.{bytes_in, text_of};

    ghost view = { bytes_in };

    ghost invariant = { λ b. b.from + b.len ≤ length (text_of b) };
}

impl Blob {
    ghost use Rattle.trace_format.specs.Blobs.{sliced};

    /// No bytes. It takes no memory.
    pub fn empty() -> Self
        ensures { result ≡ [] }
    {
        Blob {
            text: None,
            from: 0,
            len: 0,
        }
    }

    /// The bytes of a vector, none of which is copied.
    pub fn from_vec(alloc: Global, values: Vec<u8>) -> Result<Self, AllocError>
        ensures { IfOk result (λ blob. blob ≡ values.items) }
    {
        let len = values.len();
        Ok(Blob {
            text: Some(Arc::new(alloc, values)?),
            from: 0,
            len,
        })
    }

    /// So many bytes of a text, from a place on, none of which is copied.
    ///
    /// # Errors
    ///
    /// `AllocError` where the text has too many owners.
    pub fn part(text: &Text, from: u64, len: usize) -> Result<Self, AllocError>
        requires { len ≤ length (drop from text.now.value.items) }
        ensures { IfOk result (λ blob. blob ≡ take len (drop from text.now.value.items)) }
    {
        if len == 0 {
            return Ok(Blob::empty());
        }
        Ok(Blob {
            text: Some(Arc::try_clone(text)?),
            from: from as usize,
            len,
        })
    }

    /// The bytes as a slice.
    pub fn as_slice(&self) -> &[u8]
        ensures { result.now ≡ self.now }
    {
        match &self.text {
            None => &[],
            Some(text) => &text[self.from..self.from + self.len],
        }
    }

    /// The bytes with the text that they lie in, if they lie in one.
    #[inline(always)]
    pub fn slice(&self) -> Option<TextSlice<'_>>
        ensures some { IfSome result (λ bytes. sliced bytes ≡ self.now) }
        ensures none { IfNone result (self.now ≡ []) }
    {
        match &self.text {
            None => None,
            Some(text) => Some(TextSlice::of(text, self.from, self.len)),
        }
    }
}
