ghost use Rattle.std.specs.Prelude.{◌≡◌, IfOk};
ghost use Rattle.stamp_machine.specs.Limits.{AreLimits};
ghost use Rattle.task_steps.specs.Truth.{IsHistory};
ghost use Rattle.xsearch.specs.Answer.{HasOneEach};
ghost use Rattle.xsearch.specs.Searches.{CanPlay, IsSearchAnswer, PlaysMachine, limits_of as limits_of_tune, machine_answer, machine_history, settings_of as settings_of_tune};
ghost use Rattle.xsearch_words.specs.Tunes.{IsTune};

use ip_core::{Model, OutOfMemory};
use node_pool::SearchSettings;
use stamp_machine::{History, Limits};
use std::alloc::Global;
use task_steps::{Answer, Search, answer_of, answers_are_true, histories_are_read, limits_are_met};
use tree_build::finished_searches_are_accepted;
use xsearch_words::Tune;

/// A search that ended: of which model, its history, and the answer that this gives.
#[derive(Debug, Drop)]
pub struct EndedSearch {
    pub search: Search,
    pub history: History,
    pub answer: Answer,
}

/// Searches a model. The call plays the slots of the search that it is given within the limits, and
/// gives the search back with their history.
#[tactic(auto, using(crate::proofs::TrueAnswers::one_each))]
pub fn search_model<F: Fn(Search, Limits) -> Result<(Search, History), OutOfMemory>>(
    alloc: Global,
    model: Model,
    tune: &Tune,
    play: &F,
) -> Result<EndedSearch, OutOfMemory>
    requires tune { IsTune tune.now }
    requires can { CanPlay (F.pre play.now) }
    requires plays { PlaysMachine (F.post play.now) }
    ensures model { IfOk result (λ ended. ended.search.model ≡ model) }
    ensures history { IfOk result (λ ended. ended.history ≡ machine_history model tune.now) }
    ensures read { IfOk result (λ ended. IsHistory model ended.history.entries) }
    ensures answer { IfOk result (λ ended. ended.answer ≡ machine_answer model tune.now) }
    ensures one_each { IfOk result (λ ended. HasOneEach model ended.answer.best) }
    ensures true_answer { IfOk result (λ ended.
        IsSearchAnswer model tune.now (machine_answer model tune.now)) }
{
    let search = Search::new(model, settings_of(tune));
    let limits = limits_of(tune);
    histories_are_read(&search, &limits);
    answers_are_true(&search, &limits);
    limits_are_met(&search, &limits);
    finished_searches_are_accepted(&search, &limits);
    let (search, history) = play(search, limits)?;
    let answer = answer_of(alloc, search.model(), &history)?;
    Ok(EndedSearch {
        search,
        history,
        answer,
    })
}

/// A slot for each task, each with the limits that are set.
pub fn limits_of(tune: &Tune) -> Limits
    requires { IsTune tune.now }
    ensures value { result ≡ limits_of_tune tune.now }
    ensures ranges { AreLimits result }
{
    Limits {
        slots: tune.tasks,
        work: tune.work,
        store: tune.store,
    }
}

/// The switches that are set.
pub fn settings_of(tune: &Tune) -> SearchSettings
    ensures { result ≡ settings_of_tune tune.now }
{
    SearchSettings {
        cuts: tune.cuts,
        heuristics: tune.heuristics,
    }
}
