ghost use Rattle.std.specs.Prelude.{◌≡◌, true, length, IfOk, OnErr, OnOk};
ghost use Rattle.theory.specs.Prelude.{prelude};
ghost use Rattle.theory.specs.Signatures.{IsPrefix};
ghost use Rattle.core_terms.specs.declared.stop.Stop.TheVariants.{Memory};
ghost use Rattle.surface_syntax.specs.TreeMeanings.{decl_of};
ghost use Rattle.drafts.specs.draft_checks.Checks.{unmarked};
ghost use Rattle.core_sig.specs.Kinds.{HasEntryKinds};
ghost use Rattle.core_sig.specs.Meanings.{entry_of};
ghost use Rattle.core_text.specs.RawEntries.{entry_shown};
ghost use Rattle.elab_session.specs.Adding.{IsAdded};
ghost use Rattle.elab_session.specs.Entering.{CanEnter, Enters, enter_of};
ghost use Rattle.elab_session.specs.Sessions.{IsReady};
ghost use Rattle.function_session.specs.Declaring.{declared_in, new_session, with_declared};
ghost use Rattle.function_session.specs.Laws.{IsAsDeclared};
ghost use Rattle.function_session.specs.Meanings.{Answers, elaborated_in};
ghost use Rattle.function_session.specs.Meant.{declared_meant};
ghost use Rattle.function_session.specs.decisions.Laws.{HoldsDecisions};
ghost use Rattle.function_session.specs.function_laws.declaration_laws.Laws.{DeclaresUnmarked};

use crate::declaring::declare;
use crate::function_laws::declaration_laws::declared_is_meant;
use crate::{Accepted, Decision};
use core_sig::{Entry, Signature};
use core_terms::Stop;
use elab_session::{Refusal, enter_entry};
use std::alloc::Global;
use std::marker::Model;
use surface_syntax::Decl;

/// The signature that declarations add their entries to, the decisions of equality among these, in the order in which they were
/// accepted, and the units that each declaration may spend. Whoever writes to the signature leaves it well formed, settled, and with
/// the prelude at its front, and each of the decisions has its entry there.
#[derive(Drop)]
pub struct Session {
    sig: Signature,
    decisions: Vec<Decision>,
    fuel: u64,
    alloc: Global,
}

impl Model for Session {
    ghost use Rattle.std.specs.Prelude.{All};
    ghost use Rattle.elab_session.specs.Sessions.{IsReady};
    ghost use Rattle.function_session.specs.Sessions.{Session, session_code};
    ghost use Rattle.function_session.specs.decisions.Laws.{IsHeld};

    ghost Value = { Session };

    ghost coded = { session_code };

    ghost view = { λ s. record { signature = s.sig; decisions = s.decisions.items; fuel = s.fuel } };

    ghost invariant = { λ s. IsReady s.sig × All (IsHeld s.sig) s.decisions.items };
}

impl Session {
    /// The prelude, with axiom K or without.
    pub fn new(alloc: Global, k: bool, fuel: u64) -> Result<Session, Stop>
        ensures signature { IfOk result (λ s. s.signature ≡ prelude k) }
        ensures fuel { IfOk result (λ s. s.fuel ≡ fuel) }
        ensures whole { IfOk result (λ s. s ≡ new_session k fuel) }
        ensures memory { OnErr result (result ≡ Err Memory) }
    {
        let sig = Signature::prelude(alloc, k)?;
        Ok(Session {
            sig,
            decisions: Vec::new(alloc),
            fuel,
            alloc,
        })
    }

    /// The prelude and the entries that were accepted.
    pub fn signature(&self) -> &Signature
        ensures signature { result.now ≡ self.now.signature }
        ensures ready { IsReady self.now.signature }
    {
        &self.sig
    }

    /// Adds the entries of a declaration. After a refusal the session is as it was.
    ///
    /// The answer is the one that is meant. If the name of a family or of a constructor holds a `!`, which no source file can write,
    /// no draft may enter, and a declaration that has one to enter is Deep.
    pub fn declare(&mut self, d: &Decl) -> Result<Accepted, Refusal>
        ensures answer { Answers self.new.signature result (declared_in self.old (decl_of d.now)) }
        ensures meant { DeclaresUnmarked (decl_of d.now) → unmarked self.old.signature ≡ true → Answers self.new.signature result (declared_meant self.old (decl_of d.now)) }
        ensures err { OnErr result (self.new ≡ self.old) }
        ensures next { OnOk result (self.new ≡ with_declared self.old (decl_of d.now) self.new.signature) }
        ensures fuel { self.new.fuel ≡ self.old.fuel }
        ensures longer { IsPrefix self.old.signature self.new.signature }
        ensures ready { IsReady self.new.signature }
        ensures held { HoldsDecisions self.new }
        ensures written { IfOk result (λ a. IsAsDeclared self.old (decl_of d.now) (elaborated_in self.new.signature a)) }
        ensures begins { IfOk result (λ a. a.from ≡ length self.old.signature.entries) }
        ensures ends { IfOk result (λ a. a.to ≡ length self.new.signature.entries) }
    {
        declared_is_meant();
        declare(self.alloc, &mut self.sig, &mut self.decisions, self.fuel, d)
    }

    /// Adds an entry of a core file and answers its number, also where it is an instance that is there already. After a refusal
    /// the session is as it was.
    pub fn enter(&mut self, entry: Entry) -> Result<u32, Refusal>
        requires entry { CanEnter self.old.signature (entry_shown (length self.old.signature.entries) (entry_of entry)) }
        requires kinds { HasEntryKinds (length self.old.signature.entries) entry }
        ensures answer { Enters self.new.signature result (enter_of self.old.signature self.old.fuel (entry_shown (length self.old.signature.entries) (entry_of entry))) }
        ensures err { OnErr result (self.new ≡ self.old) }
        ensures fuel { self.new.fuel ≡ self.old.fuel }
        ensures longer { IsPrefix self.old.signature self.new.signature }
        ensures added { IfOk result (λ _. IsAdded self.old.signature (entry_shown (length self.old.signature.entries) (entry_of entry)) self.new.signature) }
        ensures ready { IsReady self.new.signature }
    {
        enter_entry(self.alloc, &mut self.sig, self.fuel, entry)
    }
}
