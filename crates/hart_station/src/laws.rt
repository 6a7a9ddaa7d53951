//! What is proved about the definitions, not about code.
ghost use Rattle.std.specs.Prelude.{◌≡◌, ℕ, List, Option};
ghost use Rattle.hart_commands.specs.Commands.{request_rows};
ghost use Rattle.hart_commands.specs.Fields.{bytes_of, fields_of};
ghost use Rattle.hart_device.specs.Device.{DeviceState};
ghost use Rattle.hart_frame.specs.wire.FrameParts.{FrameParts};
ghost use Rattle.hart_master.specs.declared.frame_hand.FrameHand.TheVariants.{Empty};
ghost use Rattle.hart_request.specs.declared.fault.BadField.{BadField};
ghost use Rattle.hart_station.specs.DeviceLines.{ServesLine};
ghost use Rattle.hart_station.specs.Encode.{IsEncoding, IsFirstBad, MessageWords};
ghost use Rattle.hart_station.specs.Given.{AreGiven};
ghost use Rattle.hart_station.specs.Lines.{IsMessageLine};
ghost use Rattle.hart_station.specs.MasterLines.{LineMaster, ServesMasterLine};
ghost use Rattle.hart_station.specs.Promise.{KeepsPromises};
ghost use Rattle.hart_station.specs.Request.{HasBadField, IsFirstBadWord, IsRequestByNames, IsRequestText, RequestWords as GivenWords};
ghost use Rattle.hart_station.specs.Station.{Serves};

/// `hart explain` splits the data of a request into fields by a table. If the data of `hart request` are split in this way, they have all
/// fields of the command. Each field has the bytes of the value in its word, and no byte follows the last field.
pub fn fields_of_requests_are_those_given()
    ensures given { (words : GivenWords) (frame : FrameParts) → IsRequestByNames words frame
        → AreGiven words.fields (request_rows frame.command) (fields_of (request_rows frame.command) frame.payload) }
    ensures whole { (words : GivenWords) (frame : FrameParts) → IsRequestByNames words frame
        → bytes_of (fields_of (request_rows frame.command) frame.payload) ≡ frame.payload }
{}

/// Words have at most one text and at most one first bad word, but never both. So, unless a write fails, the words determine what
/// `hart encode` writes and returns.
pub fn one_encoding()
    ensures one_text { (words : MessageWords) (xs ys : List ℕ) → IsEncoding words xs → IsEncoding words ys → xs ≡ ys }
    ensures one_bad_word { (words : MessageWords) (m n : ℕ) → IsFirstBad words m → IsFirstBad words n → m ≡ n }
    ensures no_bad_word { (words : MessageWords) (xs : List ℕ) (number : ℕ) → IsEncoding words xs → IsFirstBad words number → ⊥ }
{}

/// Words have at most one text, at most one first bad word and at most one bad field, but never two of the three. So, unless a write fails,
/// the words determine what `hart request` writes and returns.
pub fn one_request()
    ensures one_text { (words : GivenWords) (xs ys : List ℕ) → IsRequestText words xs → IsRequestText words ys → xs ≡ ys }
    ensures one_bad_word { (words : GivenWords) (m n : ℕ) → IsFirstBadWord words m → IsFirstBadWord words n → m ≡ n }
    ensures one_bad_field { (words : GivenWords) (a b : BadField) → HasBadField words a → HasBadField words b → a ≡ b }
    ensures no_bad_word { (words : GivenWords) (xs : List ℕ) (number : ℕ) → IsRequestText words xs → IsFirstBadWord words number → ⊥ }
    ensures no_bad_field { (words : GivenWords) (xs : List ℕ) (bad : BadField) → IsRequestText words xs → HasBadField words bad → ⊥ }
    ensures not_both { (words : GivenWords) (number : ℕ) (bad : BadField)
        → IsFirstBadWord words number → HasBadField words bad → ⊥ }
{}

/// The message of a frame has only one line of hex.
pub fn messages_have_one_line()
    ensures { (frame : FrameParts) (preambles : ℕ) (xs ys : List ℕ)
        → IsMessageLine frame preambles xs → IsMessageLine frame preambles ys → xs ≡ ys }
{}

/// A device or a master in a given state has only one answer to a line, and only one state after it.
pub fn lines_have_one_answer()
    ensures device { (device a b : DeviceState) (line : Option (List ℕ)) (xs ys : List ℕ)
        → ServesLine device line a xs → ServesLine device line b ys → (a ≡ b) × (xs ≡ ys) }
    ensures master { (asker a b : LineMaster) (line : Option (List ℕ)) (xs ys : List ℕ)
        → ServesMasterLine asker line a xs → ServesMasterLine asker line b ys → (a ≡ b) × (xs ≡ ys) }
{}

/// A session of a master that begins with nothing in hand keeps the promise of `KeepsPromises`.
pub fn sessions_keep_their_promises()
    ensures { (asker after : LineMaster) (lines : List (List ℕ)) (text : List ℕ) → asker.master.hand ≡ Empty
        → Serves ServesMasterLine asker lines after text → KeepsPromises asker lines text }
{}
