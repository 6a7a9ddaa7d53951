//! Laws about the calls that words make.

ghost use Rattle.std.specs.Prelude.{◌≡◌, ◌∷◌, [], ℕ, List, None, Some, codes, false, true};
ghost use Rattle.hart_cli.specs.program.CommandLine.{Calls};
ghost use Rattle.hart_cli.specs.declared.calls.program.command_line.Call.{Call};
ghost use Rattle.hart_cli.specs.declared.calls.program.command_line.Call.TheVariants.{Answer, Dump, Encode, Explain, Request};
ghost use Rattle.hart_cli.specs.declared.calls.program.command_line.Call.TheVariants.{Serve, Sim};
ghost use Rattle.hart_cli.specs.declared.calls.explain.printer.Style.TheVariants.{Objects, Words};

/// If the only word is `answer`, `dump`, `explain`, `serve` or `sim`, this word calls that subcommand, without an image. After `answer`,
/// `serve` or `sim`, `--image 01` gives the image `01`. After `explain`, `--raw` makes the input raw, and `--json` asks for JSON.
/// `encode P @0 0` has no data and 5 preamble bytes, or 20 if `--preambles 20` follows. `request P @0 6 a=1 b=2` has two fields, and
/// `request P @0 0` has none.
pub fn words_are_calls()
    ensures answer { Calls (Answer None) (codes "answer" ∷ []) }
    ensures answer_image { Calls (Answer (Some (codes "01"))) (codes "answer" ∷ codes "--image" ∷ codes "01" ∷ []) }
    ensures dump { Calls Dump (codes "dump" ∷ []) }
    ensures explain { Calls (Explain Words false) (codes "explain" ∷ []) }
    ensures explain_raw { Calls (Explain Words true) (codes "explain" ∷ codes "--raw" ∷ []) }
    ensures explain_json { Calls (Explain Objects false) (codes "explain" ∷ codes "--json" ∷ []) }
    ensures explain_raw_json { Calls (Explain Objects true) (codes "explain" ∷ codes "--raw" ∷ codes "--json" ∷ []) }
    ensures serve { Calls (Serve None) (codes "serve" ∷ []) }
    ensures serve_image { Calls (Serve (Some (codes "01"))) (codes "serve" ∷ codes "--image" ∷ codes "01" ∷ []) }
    ensures sim { Calls (Sim None) (codes "sim" ∷ []) }
    ensures sim_image { Calls (Sim (Some (codes "01"))) (codes "sim" ∷ codes "--image" ∷ codes "01" ∷ []) }
    ensures encode { Calls
        (Encode (record { who = codes "P"; address = codes "@0"; command = codes "0"; payload = []; preambles = 5 }))
        (codes "encode" ∷ codes "P" ∷ codes "@0" ∷ codes "0" ∷ []) }
    ensures preambles { Calls
        (Encode (record { who = codes "P"; address = codes "@0"; command = codes "0"; payload = []; preambles = 20 }))
        (codes "encode" ∷ codes "P" ∷ codes "@0" ∷ codes "0" ∷ codes "--preambles" ∷ codes "20" ∷ []) }
    ensures request { Calls
        (Request (record { who = codes "P"; address = codes "@0"; command = codes "0"; fields = []; preambles = 5 }))
        (codes "request" ∷ codes "P" ∷ codes "@0" ∷ codes "0" ∷ []) }
    ensures request_fields { Calls
        (Request (record {
          who = codes "P";
          address = codes "@0";
          command = codes "6";
          fields = codes "a=1" ∷ codes "b=2" ∷ [];
          preambles = 5;
        }))
        (codes "request" ∷ codes "P" ∷ codes "@0" ∷ codes "6" ∷ codes "a=1" ∷ codes "b=2" ∷ []) }
{}

/// Words make at most one call, so they determine what the program does.
pub fn one_call()
    ensures { (a b : Call) (words : List (List ℕ)) → Calls a words → Calls b words → a ≡ b }
{}
