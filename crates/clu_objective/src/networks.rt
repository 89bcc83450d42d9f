//! The two objectives of a network, each with its limits: agreement (Bansal, Blum and Chawla 2004) and modularity
//! (Newman and Girvan 2004). Edits ask for a graph, so they can't come here.

ghost use Rattle.std.specs.Prelude.{◌≡◌, ◌≢◌};
ghost use Rattle.clu_objective.specs.Agreement.{AnswersAgreement};
ghost use Rattle.clu_objective.specs.Modularity.{AnswersModularity};
ghost use Rattle.clu_objective.specs.declared.objective.Objective.TheVariants.{Agreement, Edits, Modularity};

use crate::agreement::pairs_of_agreement;
use crate::modularity::pairs_of_modularity;
use crate::{ObjError, Objective, Problem};
use clu_network::Network;
use std::alloc::Global;

/// The problem of agreement or of modularity on a network, or the first of what bars it: for
/// modularity a line of weight below 0, no weight at all, or lines that weigh more than 2^43 units in
/// all; for agreement lines that weigh more than 2^88 units without their signs. The scale is the
/// number of units in one for agreement, and four times the square of the total weight for
/// modularity.
pub fn pairs_of_network(
    alloc: Global,
    network: &Network,
    objective: Objective,
) -> Result<Problem, ObjError>
    requires { objective ≢ Edits }
    ensures agreement { objective ≡ Agreement → AnswersAgreement network.now result }
    ensures modularity { objective ≡ Modularity → AnswersModularity network.now result }
{
    match objective {
        Objective::Edits => unreachable!(),
        Objective::Agreement => pairs_of_agreement(alloc, network),
        Objective::Modularity => pairs_of_modularity(alloc, network),
    }
}
