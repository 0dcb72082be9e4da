//! How far bytes may be the beginning of a code, told piece by piece; nothing of them is kept.
ghost use Rattle.std.specs.Prelude.{◌≡◌, ◌<◌, ◌≤◌, ◌++◌, List, ℕ, [], length, take, drop, false, IsTrue, MatchOption};
ghost use Rattle.std.specs.Str.{IsUtf8};
ghost use Rattle.cdb_files.specs.Stages.{stage_after, stage_from, may_end};

/// What was read of a code.
#[derive(Clone, Copy)]
pub(crate) enum Stage {
    /// Nothing.
    Nothing,
    /// The `D` of the verdict that denies.
    Verdict,
    /// A verdict, or settings, with their zero byte.
    Whole,
    /// The `+` of a setting.
    Plus,
    /// A part of its name.
    Name,
    /// Its name, the `=`, and a part of its value.
    Value,
    /// What no code begins with.
    NoCode,
}

impl Stage {
    /// The stage after one byte more.
    fn after(self, byte: u8) -> Stage
        ensures { result ≡ stage_after self byte }
    {
        match self {
            Stage::Nothing => match byte {
                b'D' => Stage::Verdict,
                b'+' => Stage::Plus,
                _ => Stage::NoCode,
            },
            Stage::Verdict => match byte {
                0 => Stage::Whole,
                _ => Stage::NoCode,
            },
            Stage::Whole => match byte {
                b'+' => Stage::Plus,
                _ => Stage::NoCode,
            },
            Stage::Plus => match byte {
                0 | b'=' => Stage::NoCode,
                _ => Stage::Name,
            },
            Stage::Name => match byte {
                0 => Stage::NoCode,
                b'=' => Stage::Value,
                _ => Stage::Name,
            },
            Stage::Value => match byte {
                0 => Stage::Whole,
                _ => Stage::Value,
            },
            Stage::NoCode => Stage::NoCode,
        }
    }

    /// The stage after these bytes more.
    pub(crate) fn from(self, bytes: &[u8]) -> Stage
        ensures { result ≡ stage_from self bytes.now }
    {
        let mut stage = self;
        for byte in bytes {
            stage = stage.after(*byte);
        }
        stage
    }

    /// Whether no code begins so.
    pub(crate) fn is_no_code(self) -> bool
        ensures { IsTrue result → self ≡ Stage.NoCode }
    {
        matches!(self, Stage::NoCode)
    }

    /// Whether a code may end here.
    pub(crate) fn may_end(self) -> bool
        ensures { result ≡ may_end self }
    {
        matches!(self, Stage::Nothing | Stage::Whole)
    }
}

/// How many bytes at the front of a piece are whole characters, or `None` where what begins with the piece is no text.
/// A piece that is not the last is longer than a character.
pub(crate) fn text_front(piece: &[u8], is_last: bool) -> Option<usize>
    requires some { 0 < length piece.now }
    requires long { is_last ≡ false → 4 ≤ length piece.now }
    ensures { MatchOption result
        ((rest : List ℕ) → (IsTrue is_last → rest ≡ []) → ¬ IsUtf8 (piece.now ++ rest))
        (λ front. (0 < front) × (front ≤ length piece.now) × IsUtf8 (take front piece.now)) }
{
    let front = match str::from_utf8(piece) {
        Ok(_) => return Some(piece.len()),
        Err(fault) => fault.valid_up_to(),
    };
    if is_last || piece.len() - front >= 4 {
        return None;
    }
    Some(front)
}
