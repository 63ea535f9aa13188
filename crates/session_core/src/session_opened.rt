ghost use Rattle.session_core.specs.Stands.{HasOpened};

use crate::{Operators, Session, SourceCheck, Traffic, Wiring};
use op_rules::PieceOperator;
use session_subtasks::Emitted;

impl<O: PieceOperator + Drop, S: SourceCheck> Session<O, S> {
    /// The session of parts that agree with the machine's opening state, over a network whose nodes meet their facts. It
    /// stands for the empty run and has handed out nothing. It takes no memory.
    pub fn new(
        operators: Operators<O>,
        sources: Vec<S>,
        traffic: Traffic,
        wiring: Wiring,
    ) -> Session<O, S>
        ensures { HasOpened O.rule O.broken O.stands_for O.takes_pieces S.stands_for operators sources.items traffic wiring result }
    {
        let emitted = Emitted::new(wiring.alloc);
        Session {
            operators,
            sources,
            traffic,
            wiring,
            emitted,
        }
    }
}
