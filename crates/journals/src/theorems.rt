// What is proved of the definitions, each named by a contract.
ghost use Rattle.journals.specs.Handing.{ItemStays};

pub fn item_stays()
    ensures { ItemStays }
{}
