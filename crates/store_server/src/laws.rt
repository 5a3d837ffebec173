//! A law of what those are told who follow a store.
ghost use Rattle.std.specs.Prelude.{ℕ, Bool, List};
ghost use Rattle.reg_tree.specs.Maps.{TreeMap};
ghost use Rattle.reg_tree.specs.declared.element.Element.{Element};
ghost use Rattle.engine_invariant.specs.Engines.{EngineView};
ghost use Rattle.registry_lines.specs.Scripts.{Script};
ghost use Rattle.served_replies.specs.declared.reply.ServedReply.{ServedReply};
ghost use Rattle.store_server.specs.Following.{FollowsOn, IsFollowed};
ghost use Rattle.store_server.specs.declared.subject.Subject.{Subject};

/// Whoever follows a store from a number on is told the first changes after it: each once, in their order, and none is left
/// out before the last one. Then it is told that no later one is durable, or why no more is told.
pub fn none_is_missed()
    ensures { (sole : Bool) (origin : EngineView) (trees : List TreeMap) (number hives : ℕ) (subject : Subject)
        (old : Script) (after : ℕ) (chunks : List (List Element)) (replies : List ServedReply) (new : Script) →
        FollowsOn sole origin trees number hives subject old after chunks replies new →
        IsFollowed origin number subject after new.session.seen replies }
{}
