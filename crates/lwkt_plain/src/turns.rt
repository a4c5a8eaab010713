//! A turn of a processor.
ghost use Rattle.std.specs.Prelude.{◌≡◌, ◌<◌, ◌≤◌, ◌-◌, take, Option, Some, None, IfSome, IfOk, OnOk, if◌then◌else◌, length, is_some, option_map, slice_get};
ghost use Rattle.std.specs.List.{range_with_len};
ghost use Rattle.std.specs.Option.{option_copied, option_map_or};
ghost use Rattle.lwkt_base.specs.declared.asks.Answer.{Answer};
ghost use Rattle.lwkt_base.specs.declared.asks.Ask.{Ask};
ghost use Rattle.lwkt_base.specs.declared.limits.TheConstants.{CPU_LIMIT};
ghost use Rattle.lwkt_plain.specs.declared.states.Thread.{Thread};
ghost use Rattle.lwkt_plain.specs.Letters.{left_by};
ghost use Rattle.lwkt_plain.specs.Places.{cpu_at, thread_at, with_cpu, with_thread, with_letter, with_tokens};
ghost use Rattle.lwkt_plain.specs.Mailing.{mailed};
ghost use Rattle.lwkt_plain.specs.Sound.{AreSoundTokens, AreHeld, IsSoundList, IsSound};
ghost use Rattle.lwkt_plain.specs.Tokens.{tried, resume, gave, gives};
ghost use Rattle.lwkt_plain.specs.TokenAsks.{asked};
ghost use Rattle.lwkt_plain.specs.Turns.{ended_by, leaves, ends, is_still, is_still_busy, found, missed_by, may_try, tries, finds, round_from, runs_at, chooses, next_of, polled, list_at, performed, with_list, token_ask, mail_ask, of_mail, phase_for, performs, rests, becomes, gives_up, breaks, goes_on, makes, polls_at, turn, IsRunning, IsIdle, MayGoOn, of_tokens};

use crate::items::Items;
use crate::mailing::{Asker, Sending};
use crate::nexts::{Miss, Missed, Next};
use crate::polls::spec_at;
use crate::states::{BusyAt, Phase, Plain, Thread};
use crate::token_asks;
use crate::tokens::{give_all, resume, word_of};
use lwkt_base::{Answer, Ask, CpuId, Fault, Flags, Mode, OutOfMemory, Ref, TokId, TokList};
use lwkt_code::Code;
use lwkt_core::Token;
use lwkt_script::Script;

const PLAIN_FLAGS: Flags = Flags {
    dropable: false,
    abortable: false,
    priority: false,
};

fn reference(tok: TokId, mode: Mode) -> Ref
    ensures { result ≡ record { tok = tok; mode = mode } }
{
    Ref { tok, mode }
}

// An ask about tokens, or none of these.
fn ask_tokens(cpu: CpuId, tokens: &mut Items<Token>, list: &mut TokList, ask: &Ask) -> Option<Next>
    requires here { cpu.0 < CPU_LIMIT }
    requires sound { AreSoundTokens tokens.old }
    requires held { AreHeld cpu.0 list.old tokens.old }
    requires fits { IsSoundList (length tokens.old) list.old }
    ensures asks { option_map (asked tokens.new list.new) result ≡ token_ask cpu tokens.old list.old ask.now }
    ensures stays { result ≡ None → tokens.new ≡ tokens.old }
    ensures keeps { result ≡ None → list.new ≡ list.old }
{
    match *ask {
        Ask::Get(tok) => Some(token_asks::get(cpu, tokens, list, reference(tok, Mode::Exclusive))),
        Ask::GetShared(tok) => Some(token_asks::get(
            cpu,
            tokens,
            list,
            reference(tok, Mode::Shared),
        )),
        Ask::TryGet(tok) => Some(token_asks::try_get(
            cpu,
            tokens,
            list,
            reference(tok, Mode::Exclusive),
        )),
        Ask::Rel(tok) => Some(token_asks::rel(cpu, tokens, list, tok)),
        Ask::Swap => Some(token_asks::swap(list)),
        Ask::Read(tok, cell) => Some(token_asks::read(tokens, list, tok, cell)),
        Ask::Write(tok, cell, value) => {
            Some(token_asks::write(cpu, tokens, list, tok, cell, value))
        }
        Ask::Add(tok, more) => Some(token_asks::add(cpu, tokens, list, tok, more)),
        Ask::ReadBlob(tok) => Some(token_asks::read_blob(tokens, list, tok)),
        Ask::WriteBlob(tok, blob) => Some(token_asks::write_blob(cpu, tokens, list, tok, blob)),
        _ => None,
    }
}

// The phase after an ask that gives everything up.
fn phase_for(ask: &Ask) -> Phase
    ensures { result ≡ phase_for ask.now }
{
    match ask {
        Ask::Yield => Phase::Live,
        Ask::Fail(_) => Phase::Faulted(Fault::Assertion),
        _ => Phase::Exited,
    }
}

impl Thread {
    // Whether the word that refused its list last is still its token's.
    #[tactic(auto, using(crate::proofs::TokenSteps::word_fits))]
    fn is_still_busy(&self, tokens: &Items<Token>) -> bool
        requires { AreSoundTokens tokens.now }
        ensures { result ≡ is_still_busy tokens.now self.now }
    {
        let Some(busy) = self.busy else {
            return false;
        };
        let Some(r) = self.list.get(busy.at) else {
            return false;
        };
        let at = usize::from(r.tok.0);
        if at >= tokens.len() {
            return false;
        }
        word_of(tokens.part(at)) == busy.word
    }
}

impl Plain {
    // What a thread that ends was shown is owed a reply.
    #[tactic(auto, using(crate::proofs::Folds::fold_more, crate::proofs::Folds::fold_none), unfolding(crate::specs::Turns::leaves))]
    fn leave(&mut self, c: usize, k: usize)
        ensures { self.new ≡ leaves c k self.old }
    {
        for m in 0..self.letters.len() {
            self.leave_letter(c, k, m);
        }
    }

    // A thread ends: what it was shown is owed a reply.
    fn end(&mut self, c: usize, k: usize, phase: Phase)
        ensures { self.new ≡ ends c k phase self.old }
    {
        self.leave(c, k);
        self.end_thread(c, k, phase);
    }

    // Whether a thread is ready, and isn't refused still.
    fn may_try(&self, c: usize, k: usize) -> bool
        requires { AreSoundTokens self.now.tokens }
        ensures { result ≡ may_try self.now c k }
    {
        let Some(cpu) = self.cpus.as_slice().get(c) else {
            return false;
        };
        let Some(thread) = cpu.threads.as_slice().get(k) else {
            return false;
        };
        matches!(thread.phase, Phase::Live) && !thread.is_still_busy(&self.tokens)
    }

    // Tries the list of a thread.
    #[tactic(auto, using(crate::proofs::Soundness::few_cpus, crate::proofs::Soundness::held_idle, crate::proofs::Soundness::list_fits))]
    fn resume_list(&mut self, c: usize, k: usize) -> Option<Missed>
        requires here { c < length self.old.cpus }
        requires there { k < length (cpu_at self.old c).threads }
        requires sound { IsSound self.old }
        requires idle { IsIdle self.old c }
        ensures tokens { self.new ≡ with_tokens self.new.tokens self.old }
        ensures tried { tried self.new.tokens result ≡ resume (record { 0 = c }) self.old.tokens (list_at self.old c k) }
    {
        let cpu = self.cpus.part(c);
        let thread = cpu.threads.part(k);
        resume(CpuId(c as u8), &mut self.tokens, thread.list.refs())
    }

    // What a try that was missed leaves.
    fn miss(&mut self, c: usize, k: usize, missed: Missed)
        ensures { self.new ≡ missed_by c k self.old missed.at missed.why }
    {
        match missed.why {
            Miss::Busy(word) => self.keep_busy(
                c,
                k,
                BusyAt {
                    word,
                    at: missed.at,
                },
            ),
            Miss::Worn => self.end(c, k, Phase::Faulted(Fault::Worn)),
        }
    }

    // Tries the list of a ready thread that isn't refused still. Says whether it is held now.
    fn try_list(&mut self, c: usize, k: usize) -> bool
        requires here { c < length self.old.cpus }
        requires sound { IsSound self.old }
        requires idle { IsIdle self.old c }
        ensures { found self.new (if result then Some k else None) ≡ tries c k self.old }
    {
        if !self.may_try(c, k) {
            return false;
        }
        match self.resume_list(c, k) {
            None => true,
            Some(missed) => {
                self.miss(c, k, missed);
                false
            }
        }
    }

    // The first thread of these numbers whose list is held now.
    fn scan(&mut self, c: usize, from: usize, to: usize) -> Option<usize>
        requires here { c < length self.old.cpus }
        requires sound { IsSound self.old }
        requires idle { IsIdle self.old c }
        ensures { found self.new result ≡ finds c self.old (range_with_len from (to - from)) }
    {
        for k in from..to {
            if self.try_list(c, k) {
                return Some(k);
            }
        }
        None
    }

    // The first thread from the cursor on, round once, whose list can be held.
    fn search(&mut self, c: usize, cursor: usize, count: usize) -> Option<usize>
        requires here { c < length self.old.cpus }
        requires sound { IsSound self.old }
        requires idle { IsIdle self.old c }
        ensures { found self.new result ≡ finds c self.old (round_from cursor count) }
    {
        match self.scan(c, cursor, count) {
            Some(k) => Some(k),
            None => self.scan(c, 0, cursor),
        }
    }

    // Searches for a thread where none runs, and runs it.
    fn choose_new(&mut self, c: usize, cursor: usize, count: usize) -> Option<usize>
        requires here { c < length self.old.cpus }
        requires sound { IsSound self.old }
        requires idle { IsIdle self.old c }
        ensures { found self.new result ≡ runs_at c (finds c self.old (round_from cursor count)) }
    {
        let place = self.search(c, cursor, count);
        if let Some(k) = place {
            self.run_on(c, k);
        }
        place
    }

    // The thread of this turn: the one that runs, or the one that a search finds.
    fn choose(&mut self, c: usize) -> Option<usize>
        requires here { c < length self.old.cpus }
        requires sound { IsSound self.old }
        ensures { found self.new result ≡ chooses c self.old }
    {
        let cpu = self.cpus.part(c);
        let (cursor, count) = (cpu.cursor, cpu.threads.len());
        match cpu.running {
            Some(k) => Some(k),
            None => self.choose_new(c, cursor, count),
        }
    }

    // Performs an ask about tokens. None if it is about messages, or none of both.
    #[tactic(auto, using(crate::proofs::Soundness::few_cpus, crate::proofs::Soundness::held_running, crate::proofs::Soundness::list_fits, crate::proofs::Changes::changed_in))]
    fn perform_tokens(&mut self, c: usize, k: usize, ask: &Ask) -> Option<Next>
        requires here { c < length self.old.cpus }
        requires there { k < length (cpu_at self.old c).threads }
        requires sound { IsSound self.old }
        requires running { IsRunning self.old c k }
        ensures asks { option_map (performed self.new) result ≡ option_map (of_tokens (record { 0 = c }) k self.old) (token_ask (record { 0 = c }) self.old.tokens (list_at self.old c k) ask.now) }
        ensures stays { result ≡ None → self.new ≡ self.old }
    {
        let cpu = self.cpus.at(c);
        let thread = cpu.threads.at(k);
        ask_tokens(CpuId(c as u8), &mut self.tokens, &mut thread.list, ask)
    }

    // How many references a thread has.
    fn references(&self, c: usize, k: usize) -> usize
        ensures { result ≡ length (list_at self.now c k) }
    {
        let Some(cpu) = self.cpus.as_slice().get(c) else {
            return 0;
        };
        match cpu.threads.as_slice().get(k) {
            Some(thread) => thread.list.len(),
            None => 0,
        }
    }

    // Performs an ask about messages, or one that gives everything up.
    fn perform_others(&mut self, c: usize, k: u8, ask: &Ask) -> Result<Next, OutOfMemory>
        requires { IsSound self.old }
        ensures { IfOk result (λ next. performed self.new next ≡ option_map_or of_mail (mail_ask c k self.old (length (list_at self.old c k)) ask.now) (performed self.old (Next.Leaves (length (list_at self.old c k)) (phase_for ask.now)))) }
    {
        let who = Asker { cpu: c, thread: k };
        let count = self.references(c, usize::from(k));
        match *ask {
            Ask::Send(msg, to, call, flags) => {
                let sending = Sending {
                    msg,
                    to,
                    call,
                    flags,
                    sync: false,
                };
                self.send(who, &sending, Next::Runs(Answer::Done))
            }
            Ask::Do(msg, to, call) => {
                let sending = Sending {
                    msg,
                    to,
                    call,
                    flags: PLAIN_FLAGS,
                    sync: true,
                };
                self.send(who, &sending, Next::Leaves(count, Phase::AwaitsReply(msg)))
            }
            Ask::Reply(msg, error, outcome) => self.reply(who, msg, error, outcome),
            Ask::Abort(msg) => Ok(self.abort(who, msg)),
            Ask::IsAborted(msg) => Ok(self.is_aborted(who, msg)),
            Ask::DropMsg(msg) => Ok(self.drop_msg(who, msg)),
            Ask::GetPort => Ok(self.get_port(who)),
            Ask::WaitPort => Ok(self.wait_port(who, count)),
            _ => Ok(Next::Leaves(count, phase_for(ask))),
        }
    }

    // Performs an ask of a running thread.
    #[tactic(auto, using(crate::proofs::Frames::few_threads))]
    fn perform(&mut self, c: usize, k: usize, ask: &Ask) -> Result<Next, OutOfMemory>
        requires here { c < length self.old.cpus }
        requires there { k < length (cpu_at self.old c).threads }
        requires sound { IsSound self.old }
        requires running { IsRunning self.old c k }
        ensures { IfOk result (λ next. performed self.new next ≡ performs (record { 0 = c }) k self.old ask.now) }
    {
        match self.perform_tokens(c, k, ask) {
            Some(next) => Ok(next),
            None => self.perform_others(c, k as u8, ask),
        }
    }

    // Gives the first references of a thread's list up; no thread runs then. Says whether a section had broken its law.
    fn give_up(&mut self, c: usize, k: usize, held: usize) -> bool
        requires here { c < length self.old.cpus }
        requires there { k < length (cpu_at self.old c).threads }
        requires tokens { AreSoundTokens self.old.tokens }
        requires few { length self.old.cpus ≤ CPU_LIMIT }
        requires fits { held ≤ length (list_at self.old c k) }
        requires held { AreHeld c (take held (list_at self.old c k)) self.old.tokens }
        ensures gives { self.new ≡ gives_up (record { 0 = c }) k held self.old }
        ensures broken { result ≡ breaks (record { 0 = c }) k held self.old }
    {
        let broken = self.give_held(c, k, held);
        self.rest(c);
        broken
    }

    fn give_held(&mut self, c: usize, k: usize, held: usize) -> bool
        requires here { c < length self.old.cpus }
        requires there { k < length (cpu_at self.old c).threads }
        requires tokens { AreSoundTokens self.old.tokens }
        requires few { length self.old.cpus ≤ CPU_LIMIT }
        requires fits { held ≤ length (list_at self.old c k) }
        requires held { AreHeld c (take held (list_at self.old c k)) self.old.tokens }
        ensures gives { self.new ≡ with_tokens (gives (record { 0 = c }) self.old.tokens (take held (list_at self.old c k))).tokens self.old }
        ensures broken { result ≡ breaks (record { 0 = c }) k held self.old }
    {
        let cpu = &self.cpus.as_slice()[c];
        let thread = &cpu.threads.as_slice()[k];
        give_all(
            CpuId(c as u8),
            &mut self.tokens,
            &thread.list.refs()[..held],
        )
    }

    // A thread is in a phase; one that has ended has no list.
    fn become_so(&mut self, c: usize, k: usize, phase: Phase)
        ensures { self.new ≡ becomes c k phase self.old }
    {
        if phase.has_ended() {
            self.end(c, k, phase);
        } else {
            self.put_phase(c, k, phase);
        }
    }

    // What comes next for a thread comes.
    fn go_on(&mut self, c: usize, k: usize, next: Next)
        requires here { c < length self.old.cpus }
        requires there { k < length (cpu_at self.old c).threads }
        requires tokens { AreSoundTokens self.old.tokens }
        requires few { length self.old.cpus ≤ CPU_LIMIT }
        requires may { MayGoOn self.old c k next }
        ensures { self.new ≡ goes_on (record { 0 = c }) k self.old next }
    {
        match next {
            Next::Runs(answer) => self.put_answer(c, k, answer),
            Next::Leaves(held, meant) => {
                let broken = self.give_up(c, k, held);
                let phase = if broken {
                    Phase::Faulted(Fault::Broken)
                } else {
                    meant
                };
                self.become_so(c, k, phase);
            }
        }
    }

    // Performs an ask of a running thread, and goes on.
    fn make(&mut self, c: usize, k: usize, ask: &Ask) -> Result<(), OutOfMemory>
        requires here { c < length self.old.cpus }
        requires there { k < length (cpu_at self.old c).threads }
        requires sound { IsSound self.old }
        requires running { IsRunning self.old c k }
        ensures exact { OnOk result (self.new ≡ makes (record { 0 = c }) k self.old ask.now) }
        ensures sound { OnOk result (IsSound self.new) }
    {
        match self.perform(c, k, ask) {
            Err(refused) => Err(refused),
            Ok(next) => {
                self.go_on(c, k, next);
                Ok(())
            }
        }
    }

    // Polls a thread once.
    #[tactic(auto, using(crate::proofs::Changes::changed_in))]
    fn poll_thread(&mut self, c: usize, k: usize, code: &Code) -> Result<Ask, OutOfMemory>
        requires here { c < length self.old.cpus }
        requires there { k < length (cpu_at self.old c).threads }
        ensures ask { IfOk result (λ ask. (t : Thread) → thread_at self.old c k ≡ Some t → ask ≡ (next_of code.now t).0) }
        ensures polled { OnOk result (self.new ≡ with_thread (polled code.now) c k self.old) }
    {
        let cpu = self.cpus.at(c);
        let thread = cpu.threads.at(k);
        thread.poll(code)
    }

    // Polls the thread of a number, and performs its ask.
    fn poll(&mut self, script: &Script, c: usize, k: usize) -> Result<(), OutOfMemory>
        requires here { c < length self.old.cpus }
        requires there { k < length (cpu_at self.old c).threads }
        requires sound { IsSound self.old }
        requires running { IsRunning self.old c k }
        ensures exact { OnOk result (self.new ≡ polls_at script.now c self.old k) }
        ensures sound { OnOk result (IsSound self.new) }
    {
        let Some(spec) = spec_at(script, c, k) else {
            return Ok(());
        };
        let ask = self.poll_thread(c, k, &spec.code)?;
        self.make(c, k, &ask)
    }

    /// Makes a turn of the processor of a number.
    ///
    /// `OutOfMemory` if memory is refused; part of the turn may have been made then.
    pub fn turn(&mut self, script: &Script, c: usize) -> Result<(), OutOfMemory>
        requires here { c < length self.old.cpus }
        requires sound { IsSound self.old }
        ensures exact { OnOk result (self.new ≡ turn script.now self.old c) }
        ensures sound { OnOk result (IsSound self.new) }
    {
        self.take_mail(c)?;
        match self.choose(c) {
            Some(k) => self.poll(script, c, k),
            None => Ok(()),
        }
    }
}
