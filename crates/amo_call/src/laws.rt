//! Laws of what doors answer, and of what files keep: each tells one thing, and what a door spells is told.
//!
//! These functions do nothing. Their contracts are facts about the definitions, which callers may use.
ghost use Rattle.std.specs.Prelude.{◌≡◌, ℕ, ◌<◌, ◌^◌, ◌++◌, Bool, true, false, List, codes};
ghost use Rattle.amo_door.specs.Answer.{IsRefusal, put_body, receiver_members, sender_members, status_of_put};
ghost use Rattle.amo_door.specs.declared.answer.Fate.{Fate};
ghost use Rattle.amo_door.specs.declared.answer.ReceiverState.{ReceiverState};
ghost use Rattle.amo_door.specs.declared.answer.SenderState.{SenderState};
ghost use Rattle.amo_door.specs.declared.answer.When.{When};
ghost use Rattle.amo_door.specs.declared.claim.Claim.{Claim};
ghost use Rattle.amo_door.specs.declared.claim.EventPlace.{EventPlace};
ghost use Rattle.amo_door.specs.declared.claim.Made.{Made};
ghost use Rattle.amo_door.specs.declared.refusal.Refusal.{Refusal};
ghost use Rattle.amo_door.specs.Refusal.{status_of, word_of};
ghost use Rattle.amo_door.specs.Word.{IsWord};
ghost use Rattle.amo_call.specs.Answer.{IsEventPlace, IsOfDoor, TellsConflict, TellsFate, TellsPut, TellsRefusal, TellsState};
ghost use Rattle.amo_call.specs.declared.answer.Response.{Response};
ghost use Rattle.amo_call.specs.declared.answer.StreamState.{StreamState};
ghost use Rattle.amo_call.specs.declared.kept.Kept.{Kept};
ghost use Rattle.amo_call.specs.Kept.{IsKept, kept_text};

/// An answer tells one thing at most: of the message of a claim, of a stream, of a conflict, and by the word of a refusal.
pub fn answers_tell_one_thing()
    ensures put { (claim : Claim) (a b : EventPlace) (response : Response) → TellsPut claim a response → TellsPut claim b response → a ≡ b }
    ensures fate { (claim : Claim) (a b : Fate) (response : Response) → TellsFate claim a response → TellsFate claim b response → a ≡ b }
    ensures state { (stream : ℕ) (puts : Bool) (a b : StreamState) (response : Response) → TellsState stream puts a response → TellsState stream puts b response → a ≡ b }
    ensures conflict { (claim : Claim) (puts : Bool) (a b : ℕ) (response : Response) → TellsConflict claim puts a response → TellsConflict claim puts b response → a ≡ b }
    ensures refusal { (a b : List ℕ) (response : Response) → TellsRefusal a response → TellsRefusal b response → a ≡ b }
{}

/// What a door answers is told: that a message was put, how a stream is, and why a request is refused; and no refusal is taken for that of a proxy.
pub fn answers_of_doors_are_told()
    ensures put { (claim : Claim) (made : Made) (when : When) (response : Response) → IsEventPlace made.place → made.number ≡ claim.number
        → response.status ≡ status_of_put when → response.body.items ≡ put_body claim.life claim.stream made → TellsPut claim made.place response }
    ensures sender { (life : List ℕ) (stream : ℕ) (state : SenderState) (response : Response) → IsWord life → state.put < 2 ^ 64 → response.status ≡ 200
        → response.body.items ≡ codes "{" ++ sender_members life stream state ++ codes "}" → TellsState stream true (record { life = life; last = state.put }) response }
    ensures receiver { (life : List ℕ) (stream : ℕ) (state : ReceiverState) (response : Response) → IsWord life → state.taken < 2 ^ 64 → response.status ≡ 200
        → response.body.items ≡ codes "{" ++ receiver_members life stream state ++ codes "}" → TellsState stream false (record { life = life; last = state.taken }) response }
    ensures refusal { (reason : Refusal) (more : List ℕ) (response : Response) → IsRefusal reason more response.body.items → TellsRefusal (word_of reason) response }
    ensures door { (reason : Refusal) (more : List ℕ) (response : Response) → response.status ≡ status_of reason → IsRefusal reason more response.body.items → IsOfDoor response }
{}

/// Two calls have two texts: what a file keeps is read back as it was.
pub fn kept_calls_have_one_text()
    ensures { (a b : Kept) → IsKept a → IsKept b → kept_text a ≡ kept_text b → a ≡ b }
{}
