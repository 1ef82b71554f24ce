ghost use Rattle.width_admit.specs.Laws.{AdmissionKeepsRows, AdmissionKeepsPoints, AdmissionKeepsValues, AdmissionKeepsAnswers};

/// A law of every model that is admitted, with nothing to run: a point of whole numbers meets the rows of the file, of each
/// kind and with their ranges, exactly where it meets the rows of the admitted model.
pub fn admission_keeps_rows()
    ensures { AdmissionKeepsRows }
{}

/// A law of every model that is admitted, with nothing to run: the points of whole numbers that the file's bounds and rows
/// allow are exactly the feasible points of the admitted model.
pub fn admission_keeps_points()
    ensures { AdmissionKeepsPoints }
{}

/// A law of every model that is admitted, with nothing to run: at each point the value of the admitted model plus its
/// constant is the file's objective times ten to the power of `decimals`, negated where the file maximises.
pub fn admission_keeps_values()
    ensures { AdmissionKeepsValues }
{}

/// A law of every model that is admitted, with nothing to run: the best points of the admitted model are the solutions of the
/// file's model with the best objective, the greatest where the file maximises and else the least, and where one has none
/// the other has none.
pub fn admission_keeps_answers()
    ensures { AdmissionKeepsAnswers }
{}
